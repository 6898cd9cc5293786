//! Which owners a peer may lack writes of, and since when.
ghost use Rattle.std.specs.Prelude.{◌≡◌, ◌==◌, IfErr, OnOk, OnErr, length};
ghost use Rattle.std.specs.FinMap.{empty, entries, len};
ghost use Rattle.sb_budget.specs.Backlogs as spec;

use sb_types::{Fault, Name};
use std::alloc::Global;
use std::collections::BTreeMap;
use std::collections::btree_map::Iter;
use std::marker::Model;

/// Owners of whom a peer may lack writes, each with the version up to which the peer has them.
///
/// The test `example_of_backlog` runs these lines:
/// ```
/// let a = Name::read(b"a")?;
/// let mut backlog = Backlog::new(alloc);
/// backlog.add(a, 4)?;
/// backlog.add(a, 7)?;
/// for (owner, version) in backlog.owners() {
///     assert!(rt; *owner == a && *version == 4);
/// }
/// ```
#[derive(Drop)]
pub struct Backlog {
    owners: BTreeMap<Name, u64>,
}

impl Model for Backlog {
    ghost use Rattle.std.specs.Ordering.{nat_cmp};
    ghost use Rattle.std.specs.Cmp.Lexicographic.{slice_cmp};
    ghost use Rattle.std.specs.BTreeMap.{IsOrdered};
    ghost use Rattle.std.specs.Coded.{codes};
    ghost use Rattle.std.specs.FinMap.{code};
    ghost use Rattle.sb_budget.specs.Backlogs as spec;

    ghost Value = { spec.Backlog };

    ghost coded = { Prim.hlevel (codes, code) };

    ghost view = { λ b. spec.backlog_by b.owners.entries };

    ghost invariant = { λ b. IsOrdered (slice_cmp nat_cmp) b.owners };
}

impl Backlog {
    /// Makes the backlog of a peer that lacks nothing. It takes no memory.
    pub fn new(alloc: Global) -> Backlog
        ensures { result ≡ empty }
    {
        Backlog {
            owners: BTreeMap::new(alloc),
        }
    }

    /// Adds an owner, with the version up to which the peer has its writes. An owner that is in the backlog keeps its
    /// version. `NoMemory`, with nothing changed.
    pub fn add(&mut self, owner: Name, version: u64) -> Result<(), Fault>
        ensures ok { OnOk result (self.new ≡ spec.with_version self.old owner version) }
        ensures err { OnErr result (self.new ≡ self.old) }
        ensures memory { IfErr result (λ fault. fault ≡ Fault.NoMemory) }
    {
        if self.owners.contains_key(&owner) {
            return Ok(());
        }
        match self.owners.insert(owner, version) {
            Ok(earlier) => {
                drop(earlier);
                Ok(())
            }
            Err(refused) => {
                drop(refused);
                Err(Fault::NoMemory)
            }
        }
    }

    /// Returns the owners in ascending order, each with the version up to which the peer has its writes.
    pub fn owners(&self) -> Iter<'_, Name, u64>
        ensures { result ≡ entries self.now }
    {
        self.owners.iter()
    }

    /// Removes all owners: the peer lacks nothing any more.
    pub fn clear(&mut self)
        ensures { self.new ≡ empty }
    {
        self.owners.clear();
    }
}
