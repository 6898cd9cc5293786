//! The layers up to the node, measured: a line for each call of them.
use crate::calls::{Call, CallInputs};
use crate::plan::Plan;
use crate::problem::Problem;
use crate::report::{tell, tell_count};
use crate::sample::{Kinds, blocks};
use crate::{catch_up, logs, memory, staging};
use sb_types::Block;

/// A line: its name, the call that it is about, and the unit that it counts by.
type Line = (&'static str, Call, &'static str);

/// The lines of a delta's way:
///
/// - A node takes blocks and makes its digest.
/// - A delta is made, first step by step from a list of all that is lacking, and then without the list.
/// - The delta becomes bytes, and is read from them.
const LINES: [Line; 11] = [
    ("apply", Call::Apply, "entry"),
    ("digest", Call::Digest, "owner"),
    ("available", Call::Available, "entry"),
    ("breadth", Call::Breadth, "entry"),
    ("depth", Call::Depth, "entry"),
    ("cut", Call::Cut, "entry"),
    ("delta-breadth", Call::DeltaBreadth, "frame"),
    ("delta-depth", Call::DeltaDepth, "frame"),
    ("encode", Call::Encode, "entry"),
    ("decode", Call::Decode, "entry"),
    ("frames", Call::Frames, "entry"),
];

/// How a delta of texts alone becomes bytes, and is read from them.
const LINES_OF_TEXTS: [Line; 2] = [
    ("encode-texts", Call::Encode, "entry"),
    ("decode-texts", Call::Decode, "entry"),
];

/// Measures the calls of these lines, and prints them.
fn measure_lines(
    rt: &HostRuntime,
    plan: Plan,
    blocks: &[Block],
    lines: &[Line],
) -> Result<(), Problem> {
    let mut given = CallInputs::new(rt.alloc(), blocks)?;
    for &(name, call, unit) in lines {
        let measured = given.measure(rt, call, plan.rounds);
        tell(rt, plan.telling, measured, name, unit)?;
    }
    Ok(())
}

fn measure_texts(rt: &HostRuntime, plan: Plan) -> Result<(), Problem> {
    let blocks = blocks(rt.alloc(), plan.owners, plan.keys, Kinds::Texts)?;
    measure_lines(rt, plan, &blocks, &LINES_OF_TEXTS)
}

/// Measures how a node catches up with a peer.
fn measure_session(rt: &HostRuntime, plan: Plan, blocks: &[Block]) -> Result<(), Problem> {
    let caught = catch_up::measure(rt, plan, blocks)?;
    tell(rt, plan.telling, Ok(caught.entries), "catch-up", "entry")?;
    tell_count(rt, "catch-up-sent", caught.frames, "frame")?;
    tell_count(rt, "catch-up-sent", caught.bytes, "byte")?;
    tell_count(rt, "catch-up-content", caught.content, "byte")
}

/// Measures each layer and prints its lines. If a file is given, it also measures a log in that file.
pub(crate) fn measure(rt: &HostRuntime, plan: Plan, log: Option<&str>) -> Result<(), Problem> {
    memory::hold(rt, plan)?;
    let blocks = blocks(rt.alloc(), plan.owners, plan.keys, Kinds::Short)?;
    measure_lines(rt, plan, &blocks, &LINES)?;
    measure_texts(rt, plan)?;
    staging::measure(rt, plan)?;
    measure_session(rt, plan, &blocks)?;
    logs::measure(rt, plan, log)
}
