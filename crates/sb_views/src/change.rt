//! What changes of an owner in a view.
ghost use Rattle.std.specs.Prelude.{◌≡◌};
ghost use Rattle.sb_views.specs.Changes.{change_of};

use sb_types::SharedEntry;

/// A change of an owner, as it is to be shown.
#[derive(Drop)]
pub enum Change {
    /// A write is entered: its value stands under its key, or nothing where it is a removal, and the owner is held up to
    /// its version.
    Enter(SharedEntry),
    /// Nothing stands under any key of the owner.
    Clear,
    /// The owner is held up to this version.
    Hold(u64),
}

/// The parts of a change, lent.
#[derive(Clone, Copy)]
pub enum ChangeRef<'a> {
    Enter(&'a SharedEntry),
    Clear,
    Hold(u64),
}

impl Change {
    /// Its parts.
    pub(crate) fn lent(&self) -> ChangeRef<'_>
        ensures { change_of result ≡ self.now }
    {
        match self {
            Change::Enter(entry) => ChangeRef::Enter(entry),
            Change::Clear => ChangeRef::Clear,
            Change::Hold(upto) => ChangeRef::Hold(*upto),
        }
    }
}
