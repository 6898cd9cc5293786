//! The answers to the question for the next change.

ghost use Rattle.std.specs.Prelude.{◌≡◌};
ghost use Rattle.sb_codec.specs.Spelling.{number_of_notice};

/// What a node says to an AskChange: first that it watches, and later what came of it.
#[derive(Clone, Copy, Debug, PartialEq, Eq)]
pub enum Notice {
    /// From here on the node notes each change.
    Watching,
    /// Something changed since.
    Changed,
    /// The time is over, and nothing changed.
    Same,
}

impl Notice {
    /// Returns the number of the notice in a message: 1, 2 or 3.
    pub(crate) fn number(self) -> u8
        ensures { result ≡ number_of_notice self }
    {
        match self {
            Notice::Watching => 1,
            Notice::Changed => 2,
            Notice::Same => 3,
        }
    }
}
