//! How much memory a node takes.
use crate::plan::{Plan, Telling};
use crate::problem::Problem;
use crate::report::tell_count;
use crate::sample::{Kinds, block_of, no_holdings};
use sb_holdings::Holdings;
use sb_types::Fault;
use std::alloc::Global;
use std::fs;

/// The bytes of a page of memory.
const PAGE: u64 = 4096;

/// The second number of a line, which is how many pages of a process are resident. It is 0 if the line has none.
fn second_number(line: &str) -> u64 {
    match line.split(' ').nth(1) {
        Some(word) => word.parse::<u64>().unwrap_or(0),
        None => 0,
    }
}

/// The bytes of this process that are resident.
fn resident(rt: &HostRuntime) -> Result<u64, Problem> {
    let line = fs::read_to_string(rt, "/proc/self/statm")?;
    Ok(second_number(line.as_str()).saturating_mul(PAGE))
}

/// What a node holds after it took a block of each owner, and dropped the block.
fn lone_holdings(alloc: Global, plan: Plan) -> Result<Holdings, Fault> {
    let mut holdings = no_holdings(alloc)?;
    for owner in 0..plan.owners {
        holdings.apply_block(&block_of(alloc, owner, plan.keys, Kinds::Short)?);
    }
    Ok(holdings)
}

/// Prints the resident bytes of each entry that a node holds, with nothing else in memory. It has to run first: what
/// was measured before leaves memory that is resident and free.
pub(crate) fn hold(rt: &HostRuntime, plan: Plan) -> Result<(), Problem> {
    let entries = plan.owners.saturating_mul(plan.keys);
    let before = resident(rt)?;
    let _holdings = lone_holdings(rt.alloc(), plan)?;
    let bytes = resident(rt)?.saturating_sub(before);
    match plan.telling {
        Telling::Times => tell_count(rt, "hold", bytes / entries.max(1), "byte/entry"),
        Telling::Counts => tell_count(rt, "hold", entries, "entry"),
    }
}
