//! Changes of owners, as they are to be shown.
ghost use Rattle.std.specs.Prelude.{◌≡◌, ◌++◌, ◌∷◌, [], true, OnOk, OnErr, IfErr};
ghost use Rattle.sb_views.specs.Operations.{changes_of, are_changes};

use crate::change::Change;
use crate::view_copy::Operation;
use sb_types::{Fault, Name, SharedEntry};
use std::alloc::Global;
use std::collections::VecDeque;
use std::marker::Model;

/// Changes, each of an owner, in the order in which they are to be shown.
#[derive(Drop)]
pub struct Batch {
    operations: VecDeque<Operation>,
}

impl Model for Batch {
    ghost use Rattle.std.specs.Prelude.{◌≡◌, ℕ, List, true};
    ghost use Rattle.sb_views.specs.declared.change.Change.{Change};
    ghost use Rattle.sb_views.specs.Operations.{changes_of, are_changes};

    ghost Value = { List (List ℕ × Change) };

    ghost view = { λ b. changes_of b.operations.items };

    ghost invariant = { λ b. are_changes b.operations.items ≡ true };
}

/// Puts an operation behind the others. Where memory is wanting nothing changes.
fn push_operation(steps: &mut VecDeque<Operation>, step: Operation) -> Result<(), Fault>
    ensures ok { OnOk result (steps.new.items ≡ steps.old.items ++ step ∷ []) }
    ensures err { OnErr result (steps.new.items ≡ steps.old.items) }
    ensures memory { IfErr result (λ fault. fault ≡ Fault.NoMemory) }
{
    match steps.push_back(step) {
        Ok(()) => Ok(()),
        Err(refused) => {
            drop(refused);
            Err(Fault::NoMemory)
        }
    }
}

impl Batch {
    /// A batch without changes. It takes no memory; what it allocates later it allocates by `alloc`.
    pub fn new(alloc: Global) -> Batch
        ensures { result ≡ [] }
    {
        Batch {
            operations: VecDeque::new(alloc),
        }
    }

    /// Puts behind the others that an entry of an owner is entered. `NoMemory`, which leaves the batch as it was.
    pub fn push(&mut self, owner: Name, entry: SharedEntry) -> Result<(), Fault>
        ensures ok { OnOk result (self.new ≡ self.old ++ (owner, Change.Enter entry) ∷ []) }
        ensures err { OnErr result (self.new ≡ self.old) }
        ensures memory { IfErr result (λ fault. fault ≡ Fault.NoMemory) }
    {
        self.push_change(owner, Change::Enter(entry))
    }

    /// Puts behind the others that nothing stands under any key of an owner. `NoMemory`, which leaves the batch as it
    /// was.
    pub fn push_clear(&mut self, owner: Name) -> Result<(), Fault>
        ensures ok { OnOk result (self.new ≡ self.old ++ (owner, Change.Clear) ∷ []) }
        ensures err { OnErr result (self.new ≡ self.old) }
        ensures memory { IfErr result (λ fault. fault ≡ Fault.NoMemory) }
    {
        self.push_change(owner, Change::Clear)
    }

    /// Puts behind the others that an owner is held up to a version. `NoMemory`, which leaves the batch as it was.
    pub fn push_hold(&mut self, owner: Name, upto: u64) -> Result<(), Fault>
        ensures ok { OnOk result (self.new ≡ self.old ++ (owner, Change.Hold upto) ∷ []) }
        ensures err { OnErr result (self.new ≡ self.old) }
        ensures memory { IfErr result (λ fault. fault ≡ Fault.NoMemory) }
    {
        self.push_change(owner, Change::Hold(upto))
    }

    fn push_change(&mut self, owner: Name, change: Change) -> Result<(), Fault>
        ensures ok { OnOk result (self.new ≡ self.old ++ (owner, change) ∷ []) }
        ensures err { OnErr result (self.new ≡ self.old) }
        ensures memory { IfErr result (λ fault. fault ≡ Fault.NoMemory) }
    {
        push_operation(&mut self.operations, Operation::Make(owner, change))
    }

    /// The changes as operations on a copy.
    pub(crate) fn into_operations(self) -> VecDeque<Operation>
        ensures changes { changes_of result.items ≡ self }
        ensures alone { are_changes result.items ≡ true }
    {
        let Batch { operations } = self;
        operations
    }

    /// The batch of these operations.
    pub(crate) fn from_operations(operations: VecDeque<Operation>) -> Batch
        requires { are_changes operations.items ≡ true }
        ensures { result ≡ changes_of operations.items }
    {
        Batch { operations }
    }
}
