//! The rule of views: what is published is the view of a prefix of the history, no shorter than any reader saw.

use crate::history::NodeTag;
use crate::view_copy::ViewCopy;
use crossbeam_utils::rule::{Outcome, Protocol};
use std::marker::PhantomData;

/// A reader's own view, in the rule, is how many events it saw.
pub struct ViewRule<S> {
    of: PhantomData<S>,
}

impl<S: NodeTag> Protocol<ViewCopy, u64> for ViewRule<S> {
    ghost use Rattle.sb_views.specs.Publishing as spec;

    ghost holds = { λ copy seen. spec.IsPublished S.history S.opening copy seen };

    ghost first = { 0 };
}

/// A publish promises nothing by itself.
pub(crate) struct PublishOutcome;

impl Outcome<ViewCopy, u64> for PublishOutcome {
    ghost then = { λ v x y w. Unit {0} };
}

/// Whoever enters sees no fewer events than before, and the view of them.
pub(crate) struct EnterOutcome<S> {
    of: PhantomData<S>,
}

impl<S: NodeTag> Outcome<ViewCopy, u64> for EnterOutcome<S> {
    ghost use Rattle.std.specs.Prelude.{◌≡◌, ◌≤◌, length};
    ghost use Rattle.sb_views.specs.Publishing as spec;

    ghost then = { λ v x y w. (v ≤ length x.position.events) × (w ≡ length x.position.events) × spec.IsCopyOf S.history S.opening x };
}
