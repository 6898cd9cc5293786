//! The node core: what a node holds, and each of its calls as one event.

ghost use Rattle.std.specs.Prelude.{◌≡◌, ◌<◌, true, None, Some, Ok, Err, length, OnOk, OnErr, IfOk, IfErr, IfSome, IfNone};
ghost use Rattle.std.specs.Option.{option_map};
ghost use Rattle.sb_types.specs.Faults.{Gives};
ghost use Rattle.sb_types.specs.Limits.{is_delta, are_settings};
ghost use Rattle.sb_types.specs.Runs.{shown_at};
ghost use Rattle.sb_table.specs.Plain.{is_full_for};
ghost use Rattle.sb_holdings.specs.Ends.{Fits};
ghost use Rattle.sb_holdings.specs.Held.{shown_of};
ghost use Rattle.sb_holdings.specs.Nodes.{Wrote, Purged, node_after_block, node_after_event, replay_node, opened_node};
ghost use Rattle.sb_holdings.specs.Plain.{IsHoldings, own_answer};
ghost use Rattle.sb_digest.specs.Builders.{IsLongestFront};
ghost use Rattle.sb_digest.specs.Pairs.{pairs_from};
ghost use Rattle.sb_budget.specs.Available.{available_for};
ghost use Rattle.sb_budget.specs.Backlogs.{digest_since};
ghost use Rattle.sb_node.specs.Answers.{IsDelta, IsAnswer};
ghost use Rattle.sb_node.specs.Cores.{with_node, committed_answer, own_keys};
ghost use Rattle.sb_node.specs.Purging.{due_floor, purge_answer};
ghost use Rattle.sb_holdings.specs.Treats.{Treats, took_each};

use crate::purging::due_floor;
use sb_breadth::Breadth;
use sb_budget::{Backlog, DeltaOrder, cursors_since};
use sb_depth::Depth;
use sb_digest::{Digest, build};
use sb_holdings::{BlockEnd, Holdings, Report};
use sb_log::Committed;
use sb_table::Table;
use sb_types::{Block, Delta, Fault, Key, Name, Order, Settings, Slot, Value};
use std::alloc::Global;
use std::marker::Model;

/// A node: its settings, what it holds of each owner, and whether another node writes under its name.
#[derive(Drop)]
pub struct NodeCore {
    settings: Settings,
    holdings: Holdings,
    /// The greatest version under the own name that came from another node.
    conflict: Option<u64>,
    alloc: Global,
}

impl Model for NodeCore {
    ghost use Rattle.std.specs.Coded.{codes};
    ghost use Rattle.std.specs.FinMap.{code};
    ghost use Rattle.sb_holdings.specs.Plain.{IsHoldings};
    ghost use Rattle.sb_node.specs.Cores.{Core};

    ghost Value = { Core };

    ghost coded = { Prim.hlevel (codes, code) };

    ghost view = { λ c. record { settings = c.settings; node = record { held = c.holdings; conflict = c.conflict } } };

    ghost invariant = { λ c. IsHoldings c.holdings };
}

impl NodeCore {
    /// Opens the node of this name. It holds its own table, and no other owner. The only fault is `NoMemory`.
    pub fn open(
        alloc: Global,
        settings: Settings,
        me: Name,
        table: Table,
    ) -> Result<NodeCore, Fault>
        ensures settings { IfOk result (λ core. core.settings ≡ settings) }
        ensures node { IfOk result (λ core. core.node ≡ opened_node me table) }
        ensures holdings { IfOk result (λ core. IsHoldings core.node.held) }
        ensures memory { IfErr result (λ fault. fault ≡ Fault.NoMemory) }
    {
        Ok(NodeCore {
            settings,
            holdings: Holdings::new(alloc, me, table)?,
            conflict: None,
            alloc,
        })
    }

    /// Returns the settings.
    pub fn settings(&self) -> Settings
        ensures settings { result ≡ self.now.settings }
        ensures limits { are_settings self.now.settings ≡ true }
        ensures holdings { IsHoldings self.now.node.held }
    {
        // Proof only: the call shows that the settings keep their limits.
        let _ = self.settings.budget();
        self.settings
    }

    /// Returns the own name.
    pub fn name(&self) -> &Name
        ensures name { result.now ≡ self.now.node.held.me }
        ensures holdings { IsHoldings self.now.node.held }
    {
        self.holdings.me()
    }

    /// Returns what is held of each owner.
    pub fn holdings(&self) -> &Holdings
        ensures held { result.now ≡ self.now.node.held }
        ensures holdings { IsHoldings self.now.node.held }
    {
        &self.holdings
    }

    /// Returns the held version of an owner, or 0 if the owner is not held. It takes no memory.
    pub fn upto(&self, owner: &Name) -> u64
        ensures version { result ≡ (shown_of self.now.node.held owner.now).held }
        ensures holdings { IsHoldings self.now.node.held }
    {
        self.holdings.upto(owner)
    }

    /// Returns the value of an owner's key, with the version of its write. Returns `None` if the key was removed, or if
    /// no write of it is held. It takes no memory.
    pub fn get(&self, owner: &Name, key: &Key) -> Option<(&Value, u64)>
        ensures found { option_map (λ p. (p.0.now, p.1)) result ≡ shown_at key.now (shown_of self.now.node.held owner.now).entries }
        ensures holdings { IsHoldings self.now.node.held }
    {
        match self.holdings.table(owner)?.get(key)? {
            (version, Slot::Set(value)) => Some((value, version)),
            (_, Slot::Removed) => None,
        }
    }

    /// Returns how many keys the node's own table has, those with tombstones (markers of removed keys) included. It
    /// takes no memory.
    pub fn key_count(&self) -> usize
        ensures count { result ≡ own_keys self.now.node }
        ensures holdings { IsHoldings self.now.node.held }
    {
        match self.holdings.table(self.holdings.me()) {
            Some(table) => table.len(),
            None => 0,
        }
    }

    /// Returns the greatest version under the own name that a block contained and the node never wrote. Returns `None`
    /// if there was no such block. After such a block, the node takes no more writes of its own. It takes no memory.
    pub fn conflict(&self) -> Option<u64>
        ensures version { result ≡ self.now.node.conflict }
        ensures holdings { IsHoldings self.now.node.held }
    {
        self.conflict
    }

    /// Enters a committed write of the node's own. Its faults, in this order. Each leaves everything as it was:
    ///
    /// - `WrongOwner`: the write has another owner.
    /// - `OwnerConflict(version)`: another node writes under this name. `version` is that of `conflict`.
    /// - `OutOfTurn(next)`: the write has another version than the next own one. `next` is that version, or 0 if all
    ///   versions are spent.
    /// - `TableFull`: the key is new, and the own table has 4,096 others.
    /// - `NoMemory`.
    pub fn take_own(&mut self, committed: &Committed) -> Result<(), Fault>
        ensures answer { Gives result (committed_answer self.old.node committed.now) }
        ensures refused { IfErr (committed_answer self.old.node committed.now) (λ fault. result ≡ Err fault) }
        ensures ok { OnOk result (self.new ≡ with_node self.old (node_after_event self.old.node (Wrote committed.now.entry))) }
        ensures err { OnErr result (self.new ≡ self.old) }

        // What an `Ok` means for the write.
        ensures own { OnOk result (committed.now.owner ≡ self.old.node.held.me) }
        ensures alone { OnOk result (self.old.node.conflict ≡ None) }
        ensures next { OnOk result (own_answer self.old.node.held committed.now.entry ≡ Ok tt) }
        ensures holdings { IsHoldings self.new.node.held }
    {
        if let Some(fault) = self.refusal(committed) {
            return Err(fault);
        }
        self.holdings.push_own(committed.entry().copy(self.alloc)?)
    }

    /// Drops the tombstones (markers of removed keys) up to a version of the own table, which becomes its purge floor.
    /// If that is not above the present floor, nothing changes. The only fault is `FloorTooHigh`: it is above the own
    /// held version, and everything stays as it was. It takes no memory.
    pub fn purge(&mut self, floor: u64) -> Result<(), Fault>
        ensures answer { result ≡ purge_answer self.old.node floor }
        ensures ok { OnOk result (self.new ≡ with_node self.old (node_after_event self.old.node (Purged floor))) }
        ensures err { OnErr result (self.new ≡ self.old) }
        ensures holdings { IsHoldings self.new.node.held }
    {
        if floor > self.upto(self.holdings.me()) {
            return Err(Fault::FloorTooHigh);
        }
        self.holdings.purge_own(floor);
        Ok(())
    }

    /// Returns up to which version the own table is to be purged, if it is: the version of the middle one of its
    /// removed keys. It is if it has `least` of them, or if it is full and has 64 of them. If `least` is 0, it never is.
    /// It takes no memory, and one step for each key.
    #[tactic(auto, using(crate::proofs::Removals::due_allowed, crate::proofs::Removals::due_nothing))]
    pub fn due_floor(&self, least: u64) -> Option<u64>
        ensures floor { result ≡ due_floor least (shown_of self.now.node.held self.now.node.held.me) }
        ensures allowed { IfSome result (λ floor. purge_answer self.now.node floor ≡ Ok tt) }
        ensures holdings { IsHoldings self.now.node.held }
    {
        match self.holdings.table(self.holdings.me()) {
            Some(table) => due_floor(table, least),
            None => None,
        }
    }

    /// Returns why a committed write cannot be entered: the first of `WrongOwner`, `OwnerConflict`, `OutOfTurn` and
    /// `TableFull` that applies. Returns `None` if only memory can be missing. It takes no memory.
    pub fn refusal(&self, committed: &Committed) -> Option<Fault>
        ensures some { IfSome result (λ fault. committed_answer self.now.node committed.now ≡ Err fault) }
        ensures none { IfNone result (committed_answer self.now.node committed.now ≡ Ok tt) }
        ensures holdings { IsHoldings self.now.node.held }
    {
        if committed.owner() != self.holdings.me() {
            return Some(Fault::WrongOwner);
        }
        if let Some(version) = self.conflict {
            return Some(Fault::OwnerConflict(version));
        }
        let next = self.upto(self.holdings.me()).wrapping_add(1);
        if committed.entry().version() != next {
            return Some(Fault::OutOfTurn(next));
        }
        if self.is_full_for(committed.entry().key()) {
            return Some(Fault::TableFull);
        }
        None
    }

    /// Returns whether the own table has no room for a key.
    fn is_full_for(&self, key: &Key) -> bool
        ensures { result ≡ is_full_for key.now (shown_of self.now.node.held self.now.node.held.me).entries }
    {
        match self.holdings.table(self.holdings.me()) {
            Some(table) => table.is_full_for(key),
            None => false,
        }
    }

    /// Returns the digest of the owners from a name on, or of all owners if no name is given. The own name counts as an
    /// owner. `want` is whether a digest is wanted in answer. The digest has as many owners as fit in a frame of the
    /// settings' budget, and at least one if there is one. The only fault is `NoMemory`.
    pub fn digest(&self, from: Option<Name>, want: bool) -> Result<Digest, Fault>
        ensures longest { IfOk result (IsLongestFront self.now.settings.budget want from (pairs_from from self.now.node.held)) }
        ensures goes { IfOk result (λ digest. 0 < length (pairs_from from self.now.node.held) → 0 < length digest.pairs) }
        ensures memory { IfErr result (λ fault. fault ≡ Fault.NoMemory) }
        ensures holdings { IsHoldings self.now.node.held }
    {
        build(
            self.alloc,
            &self.holdings,
            from,
            want,
            self.settings.budget(),
        )
    }

    /// Returns what a peer that sent this digest lacks, in the order of the settings. It is the longest prefix that
    /// fits a frame of the settings' budget. If the peer lacks anything, the delta has at least one block. The only
    /// fault is `NoMemory`.
    pub fn deltas(&self, digest: &Digest) -> Result<Delta, Fault>
        ensures delta { IfOk result (IsDelta self.now.settings self.now.node.held digest.now) }
        ensures answer { IfOk result (IsAnswer self.now.settings.budget self.now.node.held digest.now) }
        ensures goes { IfOk result (λ delta. 0 < length (available_for self.now.node.held digest.now) → 0 < length delta) }
        ensures memory { IfErr result (λ fault. fault ≡ Fault.NoMemory) }
        ensures holdings { IsHoldings self.now.node.held }
    {
        let budget = self.settings.budget();
        match self.settings.order() {
            Order::Breadth => Breadth.delta(self.alloc, &self.holdings, digest, budget),
            Order::Depth => Depth.delta(self.alloc, &self.holdings, digest, budget),
        }
    }

    /// Returns what a peer with this backlog lacks, in the order of the settings, as `deltas` returns it. It is the answer to
    /// the digest of a peer that has all that the node holds, but of each owner in the backlog only what is up to its
    /// version there. An owner whose floor is above that version is left out. The call looks up the owners in the backlog
    /// alone. The only fault is `NoMemory`.
    pub fn news(&self, backlog: &Backlog) -> Result<Delta, Fault>
        ensures delta { IfOk result (IsDelta self.now.settings self.now.node.held (digest_since self.now.node.held backlog.now)) }
        ensures answer { IfOk result (IsAnswer self.now.settings.budget self.now.node.held (digest_since self.now.node.held backlog.now)) }
        ensures goes { IfOk result (λ delta. 0 < length (available_for self.now.node.held (digest_since self.now.node.held backlog.now)) → 0 < length delta) }
        ensures memory { IfErr result (λ fault. fault ≡ Fault.NoMemory) }
        ensures holdings { IsHoldings self.now.node.held }
    {
        let owners = cursors_since(self.alloc, &self.holdings, backlog)?;
        match self.settings.order() {
            Order::Breadth => Breadth.delta_of(self.alloc, owners, self.settings.budget()),
            Order::Depth => Depth.delta_of(self.alloc, owners, self.settings.budget()),
        }
    }

    /// Takes each block of a delta in turn, and returns how each ended. Returns `NoMemory` if there is no memory for
    /// the ends; then no block was taken. If a single block finds no memory, that is its end, and the next block
    /// follows.
    pub fn apply(&mut self, delta: &Delta) -> Result<Report, Fault>
        ensures ends { IfOk result (Treats self.old.node delta.now) }
        ensures ok { IfOk result (λ ends. self.new ≡ with_node self.old (replay_node self.old.node (took_each delta.now ends))) }
        ensures err { OnErr result (self.new ≡ self.old) }
        ensures delta { is_delta delta.now ≡ true }
        ensures memory { IfErr result (λ fault. fault ≡ Fault.NoMemory) }
        ensures holdings { IsHoldings self.new.node.held }
    {
        let blocks = delta.blocks();
        let mut ends = Vec::with_capacity(self.alloc, blocks.len())?;
        for block in blocks {
            let end = self.take_block(block);
            ends.push_reserved(end);
        }
        Ok(Report::new(ends))
    }

    /// Takes a block, and returns how it ended.
    fn take_block(&mut self, block: &Block) -> BlockEnd
        ensures end { Fits self.old.node.held block.now result }
        ensures effect { self.new ≡ with_node self.old (node_after_block self.old.node block.now result) }
        ensures holdings { IsHoldings self.new.node.held }
    {
        let end = self.holdings.apply_block(block);
        if let BlockEnd::OwnAhead(version) = end {
            self.conflict = Some(self.conflict.map_or(version, |seen| seen.max(version)));
        }
        end
    }
}
