//! What views lack.
ghost use Rattle.std.specs.Prelude.{◌≡◌, ◌++◌, map, MatchBool, IfOk, IfErr, OnOk};
ghost use mathlib.Core.List.{IsPrefix};
ghost use Rattle.sb_types.specs.Runs.{newer_entries, last_version};
ghost use Rattle.sb_views.specs.declared.change.Change.TheVariants as changes;
ghost use Rattle.sb_views.specs.Changes.{changes_of_owner, changes_above, lacked_of};
ghost use Rattle.sb_views.specs.Growing.{AreGrown};
ghost use Rattle.sb_views.specs.Histories.{node_after};
ghost use Rattle.sb_directory.specs.Lacking as spec;

use crate::lacking_owners::LackingOwners;
use sb_holdings::Holdings;
use sb_node::NodeCore;
use sb_table::Table;
use sb_types::{Fault, Name};
use sb_views::{Batch, HistoryPrefix, NodeTag, ViewWriter};
use std::alloc::Global;
use std::sync::Wait;

/// Adds an owner's entries above a version to the batch, and gives the version of the last one. If there is none, it gives the
/// version itself. `NoMemory`.
fn push_entries(batch: &mut Batch, owner: &Name, table: &Table, version: u64) -> Result<u64, Fault>
    ensures ok { OnOk result (batch.new ≡ batch.old ++ changes_of_owner owner.now (map changes.Enter (newer_entries version table.now.entries))) }
    ensures last { IfOk result (λ last. last ≡ last_version version (newer_entries version table.now.entries)) }
    ensures memory { IfErr result (λ fault. fault ≡ Fault.NoMemory) }
{
    let mut last = version;
    for entry in table.shared_after(version) {
        batch.push(*owner, entry.share()?)?;
        last = entry.entry().version();
    }
    Ok(last)
}

/// Adds to the batch what an owner's table has above a version, and up to which version it is held. `NoMemory`.
fn push_above(batch: &mut Batch, owner: &Name, table: &Table, version: u64) -> Result<(), Fault>
    ensures ok { OnOk result (batch.new ≡ batch.old ++ changes_of_owner owner.now (changes_above version table.now)) }
    ensures memory { IfErr result (λ fault. fault ≡ Fault.NoMemory) }
{
    let last = push_entries(batch, owner, table, version)?;
    if last >= table.upto() {
        return Ok(());
    }
    batch.push_hold(*owner, table.upto())
}

/// Adds to the batch what views lack of an owner's table. They have it up to a version, and with a floor. If the floor rose they lack
/// all of the table, since keys that they show may be gone with their removals. `NoMemory`.
fn push_lacked(
    batch: &mut Batch,
    owner: &Name,
    table: &Table,
    since: (u64, u64),
) -> Result<(), Fault>
    ensures ok { OnOk result (batch.new ≡ batch.old ++ changes_of_owner owner.now (lacked_of since.0 since.1 table.now)) }
    ensures memory { IfErr result (λ fault. fault ≡ Fault.NoMemory) }
{
    let (version, floor) = since;
    if floor >= table.floor() {
        return push_above(batch, owner, table, version);
    }
    batch.push_clear(*owner)?;
    push_above(batch, owner, table, 0)
}

/// All that views lack, owner by owner. `NoMemory`.
fn lacked_changes(
    alloc: Global,
    holdings: &Holdings,
    lacking: &LackingOwners,
) -> Result<Batch, Fault>
    ensures batch { IfOk result (λ batch. batch ≡ spec.all_lacked lacking.now holdings.now) }
    ensures memory { IfErr result (λ fault. fault ≡ Fault.NoMemory) }
{
    let mut batch = Batch::new(alloc);
    for (owner, since) in lacking.owners() {
        if let Some(table) = holdings.table(owner) {
            push_lacked(&mut batch, owner, table, *since)?;
        }
    }
    Ok(batch)
}

/// Queues all that views lack of the node as it is after this history, and says whether there was memory for it. If there was none,
/// nothing changes.
pub(crate) fn catch_up<S: NodeTag, R: Wait + Drop>(
    alloc: Global,
    views: &mut ViewWriter<S, R>,
    core: &NodeCore,
    history: &HistoryPrefix<S>,
    lacking: &mut LackingOwners,
) -> bool
    requires node { core.now.node ≡ node_after S.opening history.now }
    requires begins { IsPrefix views.old.queued history.now }
    requires grown { AreGrown (node_after S.opening views.old.queued).held core.now.node.held }
    requires since { spec.AreSince (node_after S.opening views.old.queued).held core.now.node.held lacking.old }
    ensures queued { MatchBool result (views.new ≡ record { published = views.old.published; queued = history.now }) (views.new ≡ views.old) }
    ensures grown { AreGrown (node_after S.opening views.new.queued).held core.now.node.held }
    ensures since { spec.AreSince (node_after S.opening views.new.queued).held core.now.node.held lacking.new }
{
    if views.queued_prefix().is_same(history) {
        return true;
    }
    let Ok(batch) = lacked_changes(alloc, core.holdings(), lacking) else {
        return false;
    };
    match views.append(batch, history) {
        Ok(()) => {
            lacking.clear();
            true
        }
        Err(batch) => {
            drop(batch);
            false
        }
    }
}
