//! Measures how a node takes a table in which every key was written again, if it holds the former table. It takes the
//! later table plainly, and by a stage as after a purge.
use crate::calls::enter_all;
use crate::plan::Plan;
use crate::problem::Problem;
use crate::report::{Measured, spent_since, tell};
use crate::sample::{Kinds, blocks, holdings_of, later_entries, owner_at};
use sb_holdings::Holdings;
use sb_types::{Block, Fault, SharedEntry};
use std::alloc::Global;
use std::time::CpuClock;

/// What a node holds, and how the later tables come. They come in one block each, or below a floor in two blocks. The
/// last of the two has one entry and ends the stage.
#[derive(Drop)]
struct Later {
    former: Vec<Block>,
    plain: Vec<Block>,
    staged: Vec<Block>,
    ends: Vec<Block>,
}

/// The last of the entries, and the others.
fn parted(
    alloc: Global,
    entries: Vec<SharedEntry>,
) -> Result<(Vec<SharedEntry>, Vec<SharedEntry>), Fault> {
    let mut first = entries;
    let mut last = Vec::new(alloc);
    if let Some(entry) = first.pop() {
        last.push(entry)?;
    }
    Ok((first, last))
}

impl Later {
    fn new(alloc: Global, plan: Plan) -> Result<Later, Fault> {
        let mut later = Later {
            former: blocks(alloc, plan.owners, plan.keys, Kinds::Short)?,
            plain: Vec::new(alloc),
            staged: Vec::new(alloc),
            ends: Vec::new(alloc),
        };
        for owner in 0..plan.owners {
            later.add(alloc, owner, plan.keys)?;
        }
        Ok(later)
    }

    /// Adds the blocks of an owner that wrote twice under each of so many keys.
    fn add(&mut self, alloc: Global, owner: u64, keys: u64) -> Result<(), Fault> {
        let name = owner_at(alloc, owner)?;
        let upto = keys.saturating_mul(2);
        let again = later_entries(alloc, owner, keys, keys)?;
        self.plain.push(Block::new(name, 0, keys, upto, again)?)?;
        let (first, last) = parted(alloc, later_entries(alloc, owner, keys, keys)?)?;
        let before = upto.saturating_sub(1);
        self.staged.push(Block::new(name, upto, 0, before, first)?)?;
        self.ends.push(Block::new(name, upto, before, upto, last)?)?;
        Ok(())
    }

    /// What a node holds of the former tables.
    fn held(&self, alloc: Global) -> Result<Holdings, Fault> {
        holdings_of(alloc, &self.former)
    }

    fn take_plain(&self, rt: &HostRuntime) -> Result<Measured, Problem> {
        let mut holdings = self.held(rt.alloc())?;
        let start = rt.thread_cpu_time()?;
        let entries = enter_all(&mut holdings, &self.plain);
        Ok(Measured::new(spent_since(rt, start)?, entries))
    }

    fn take_staged(&self, rt: &HostRuntime) -> Result<Measured, Problem> {
        let mut holdings = self.held(rt.alloc())?;
        let start = rt.thread_cpu_time()?;
        let staged = enter_all(&mut holdings, &self.staged);
        let ended = enter_all(&mut holdings, &self.ends);
        let spent = spent_since(rt, start)?;
        Ok(Measured::new(spent, staged.saturating_add(ended)))
    }

    /// Measures the last block alone, by which the stage replaces the shown table. Each block brings one entry.
    fn swap(&self, rt: &HostRuntime) -> Result<Measured, Problem> {
        let mut holdings = self.held(rt.alloc())?;
        enter_all(&mut holdings, &self.staged);
        let start = rt.thread_cpu_time()?;
        let swapped = enter_all(&mut holdings, &self.ends);
        Ok(Measured::new(spent_since(rt, start)?, swapped))
    }
}

/// Measures how such tables are taken, by the entry, and how a stage ends, by the owner. Prints both.
pub(crate) fn measure(rt: &HostRuntime, plan: Plan) -> Result<(), Problem> {
    let later = Later::new(rt.alloc(), plan)?;
    let (mut plain, mut staged, mut swaps) = (
        Measured::NOTHING,
        Measured::NOTHING,
        Measured::NOTHING,
    );
    for _ in 0..plan.rounds {
        plain.add(later.take_plain(rt)?);
        staged.add(later.take_staged(rt)?);
        swaps.add(later.swap(rt)?);
    }
    tell(rt, plan.telling, Ok(plain), "take-plain", "entry")?;
    tell(rt, plan.telling, Ok(staged), "take-staged", "entry")?;
    tell(rt, plan.telling, Ok(swaps), "swap", "owner")
}
