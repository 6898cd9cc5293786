//! Adding to a log whose length lies in no word.
ghost use Rattle.std.specs.Prelude.{◌≡◌, ◌+◌, ◌++◌, List, length};
ghost use Rattle.logbook.specs.Pages.{nib, may_make_home};
ghost use Rattle.sb_views.specs.Recording.{Lengthens, StandsAt};

use logbook::{Pen, Rule, Seen};

/// Which entries a value stands for.
pub(crate) trait Entries<X, E> {
    ghost entries: { X → List E };
}

/// Adds the entries of a value to a log, and their number to the cell of the pen. It does nothing at run time. The pen is the right to
/// make the word of its cell. Nobody makes that word, so nobody else sets the cell, and it holds what the pen says.
pub(crate) fn record<E, A, P: Rule<E, A>, X, M: Entries<X, E>>(
    pen: &mut Pen,
    seen: &mut Seen<E, A, P>,
    about: &X,
)
    requires { (pen.old.book ≡ seen.old.book) × (pen.old.nib.right ≡ may_make_home)
        × Lengthens P.holds P.shows pen.old.nib.key pen.old.nib.value seen.old.log (M.entries about.now) }
    ensures { (pen.new.book ≡ pen.old.book) × (pen.new.nib ≡ nib may_make_home pen.old.nib.key (pen.old.nib.value + length (M.entries about.now)))
        × (seen.new.book ≡ seen.old.book) × (seen.new.names ≡ seen.old.names) × (seen.new.log ≡ seen.old.log ++ M.entries about.now)
        × StandsAt P.holds pen.old.nib.key pen.old.nib.value seen.old.log }
{}
