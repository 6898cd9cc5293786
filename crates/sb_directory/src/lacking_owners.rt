//! Owners whose latest state views may lack.
ghost use Rattle.std.specs.Prelude.{◌≡◌, true, IfErr, OnOk, OnErr};
ghost use Rattle.std.specs.FinMap.{empty, entries, contains_key};
ghost use Rattle.sb_holdings.specs.Held.{Held};
ghost use Rattle.sb_directory.specs.Lacking as spec;

use sb_holdings::Holdings;
use sb_types::{Block, Fault, Name};
use std::alloc::Global;
use std::collections::BTreeMap;
use std::collections::btree_map::Iter;
use std::marker::Model;

/// Owners whose latest state views may lack. Each has the version up to which views have it, and the floor that its table had.
#[derive(Drop)]
pub(crate) struct LackingOwners {
    owners: BTreeMap<Name, (u64, u64)>,
}

impl Model for LackingOwners {
    ghost use Rattle.std.specs.Ordering.{nat_cmp};
    ghost use Rattle.std.specs.Cmp.Lexicographic.{slice_cmp};
    ghost use Rattle.std.specs.BTreeMap.{IsOrdered};
    ghost use Rattle.std.specs.Coded.{codes};
    ghost use Rattle.std.specs.FinMap.{code};
    ghost use Rattle.sb_directory.specs.Lacking as spec;

    ghost Value = { spec.LackingOwners };

    ghost coded = { Prim.hlevel (codes, code) };

    ghost view = { λ b. spec.lacking_by b.owners.entries };

    ghost invariant = { λ b. IsOrdered (slice_cmp nat_cmp) b.owners };
}

impl LackingOwners {
    /// Views that lack nothing. It takes no memory.
    pub(crate) fn new(alloc: Global) -> LackingOwners
        ensures { result ≡ empty }
    {
        LackingOwners {
            owners: BTreeMap::new(alloc),
        }
    }

    /// Adds an owner, with the version up to which views have it and the floor that its table had. An owner that is here
    /// already keeps its own. `NoMemory`, which changes nothing.
    pub(crate) fn add(&mut self, owner: Name, since: (u64, u64)) -> Result<(), Fault>
        ensures ok { OnOk result (self.new ≡ spec.with_owner self.old owner since) }
        ensures err { OnErr result (self.new ≡ self.old) }
        ensures memory { IfErr result (λ fault. fault ≡ Fault.NoMemory) }
    {
        if self.owners.contains_key(&owner) {
            return Ok(());
        }
        match self.owners.insert(owner, since) {
            Ok(earlier) => {
                drop(earlier);
                Ok(())
            }
            Err(refused) => {
                drop(refused);
                Err(Fault::NoMemory)
            }
        }
    }

    /// Adds the owners of these blocks that are not here yet. Views have all that is held of those. `NoMemory`, which
    /// leaves some of them added.
    pub(crate) fn add_owners(&mut self, holdings: &Holdings, blocks: &[Block]) -> Result<(), Fault>
        ensures since { (old : Held) → spec.AreSince old holdings.now self.old → spec.AreSince old holdings.now self.new }
        ensures owners { OnOk result (spec.HasOwners self.new blocks.now) }
        ensures memory { IfErr result (λ fault. fault ≡ Fault.NoMemory) }
    {
        for block in blocks {
            let owner = block.owner();
            self.add(*owner, (holdings.upto(owner), holdings.floor(owner)))?;
        }
        Ok(())
    }

    /// The owners in ascending order, each with the version up to which views have it and the floor that its table had.
    pub(crate) fn owners(&self) -> Iter<'_, Name, (u64, u64)>
        ensures { result ≡ entries self.now }
    {
        self.owners.iter()
    }

    /// Views lack nothing any more.
    pub(crate) fn clear(&mut self)
        ensures { self.new ≡ empty }
    {
        self.owners.clear();
    }
}
