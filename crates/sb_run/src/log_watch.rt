//! How a node finds that the file of its log is lost.
ghost use Rattle.std.specs.Prelude.{◌≡◌, None};

use crate::observer::Observer;
use sb_control::LogLoss;

/// Finds whether the file of a log is lost.
pub(crate) trait LogWatch {
    /// A fact that holds if the file is not lost. It can be an empty one.
    ghost finds_file: { Self → Type 0 };

    /// How the file was lost. None if it is there, or if that cannot be seen.
    fn loss(&self) -> Option<LogLoss>
        ensures found { result ≡ None → finds_file self.now };
}

/// Asks the observer of a node.
#[derive(Drop)]
pub(crate) struct AskObserver<'a, O> {
    pub(crate) observer: &'a O,
}

impl<O: Observer> LogWatch for AskObserver<'_, O> {
    ghost finds_file = { λ asks. Unit {0} };

    fn loss(&self) -> Option<LogLoss> {
        self.observer.log_loss()
    }
}
