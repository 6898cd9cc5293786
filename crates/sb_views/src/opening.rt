//! The view of a node as it is opened, and the making of its writer and its readers.
ghost use Rattle.std.specs.Prelude.{◌≡◌, ◌<◌, ◌^◌, [], map, replicate, IfOk, IfErr, OnOk};
ghost use Rattle.std.specs.FinMap.{empty};
ghost use Rattle.sb_types.specs.Runs.{newer_entries, last_version};
ghost use Rattle.sb_holdings.specs.Plain.{IsHoldings};
ghost use Rattle.sb_views.specs.declared.change.Change.TheVariants as changes;
ghost use Rattle.sb_views.specs.Changes.{changes_of_owner, changes_above, all_changes};
ghost use Rattle.sb_views.specs.NodeViews as node_views;

use crate::change::ChangeRef;
use crate::history::{HistoryPrefix, NodeTag};
use crate::node_view::NodeView;
use crate::reader::Reader;
use crate::view_copy::ViewCopy;
use crate::writer::ViewWriter;
use sb_holdings::Holdings;
use sb_table::Table;
use sb_types::{Fault, Name};
use std::alloc::{AllocError, Global};
use std::sync::Wait;

/// Shows all entries of an owner, and gives the version of the last one, 0 where there is none.
fn enter_all(view: &mut NodeView, owner: &Name, table: &Table) -> Result<u64, AllocError>
    ensures entered { OnOk result (view.new ≡ node_views.view_with_all view.old (changes_of_owner owner.now (map changes.Enter (newer_entries 0 table.now.entries)))) }
    ensures last { IfOk result (λ last. last ≡ last_version 0 (newer_entries 0 table.now.entries)) }
{
    let mut last = 0;
    for entry in table.shared_after(0) {
        view.change(owner, ChangeRef::Enter(entry))?;
        last = entry.entry().version();
    }
    Ok(last)
}

/// Shows all entries of an owner, and up to which version it is held.
fn show_table(view: &mut NodeView, owner: &Name, table: &Table) -> Result<(), AllocError>
    ensures { OnOk result (view.new ≡ node_views.view_with_all view.old (changes_of_owner owner.now (changes_above 0 table.now))) }
{
    let last = enter_all(view, owner, table)?;
    if last >= table.upto() {
        return Ok(());
    }
    view.change(owner, ChangeRef::Hold(table.upto()))
}

/// The view of all that is held.
fn view_of(alloc: Global, holdings: &Holdings) -> Result<NodeView, AllocError>
    ensures view { IfOk result (λ view. view ≡ node_views.view_with_all empty (all_changes holdings.now)) }
    ensures holdings { IsHoldings holdings.now }
{
    let mut view = NodeView::new(alloc);
    for (owner, table) in holdings.tables_from(None) {
        show_table(&mut view, owner, table)?;
    }
    Ok(view)
}

/// The views of a node as it is opened, for so many readers: what is held is published, and every reader has seen
/// nothing of the history. `NoMemory`.
pub fn views<S: NodeTag, R: Wait + Drop>(
    alloc: Global,
    rt: R,
    start: HistoryPrefix<S>,
    holdings: &Holdings,
    seats: usize,
) -> Result<(ViewWriter<S, R>, Vec<Reader<S>>), Fault>
    requires opening { S.opening.held ≡ holdings.now }
    requires start { start ≡ [] }
    requires seats { (0 < seats) × (seats < 2 ^ 32) }
    ensures writer { IfOk result (λ v. v.0 ≡ record { published = []; queued = [] }) }
    ensures readers { IfOk result (λ v. v.1.items ≡ replicate seats []) }
    ensures memory { IfErr result (λ fault. fault ≡ Fault.NoMemory) }
{
    let Ok(first) = view_of(alloc, holdings) else {
        return Err(Fault::NoMemory);
    };
    let Ok(second) = view_of(alloc, holdings) else {
        return Err(Fault::NoMemory);
    };
    let first = ViewCopy::new(first, start.position().copy());
    let second = ViewCopy::new(second, start.position().copy());
    let writer = ViewWriter::new(alloc, rt, start, first, second, seats)?;
    let readers = writer.readers(alloc, seats)?;
    Ok((writer, readers))
}
