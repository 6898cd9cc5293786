//! How a world is made from logs.

ghost use Rattle.std.specs.Prelude.{◌≡◌, true, Err, map, IfOk, IfErr, IfSome, OnOk};
ghost use Rattle.sb_types.specs.Runs.{Stands};
ghost use Rattle.sb_log.specs.Records as records;
ghost use Rattle.sb_log.specs.Puts.{IsSure};
ghost use Rattle.sb_world.specs.Places as world;
ghost use Rattle.sb_world.specs.Making as spec;
ghost use Rattle.sb_world.specs.Making.{IsNew, IsNodeOf, HaveNodes, IsOpeningFault, IsMakingFault, AreSureLogs};

use crate::place::Place;
use sb_log::WriteLog;
use sb_node::NodeCore;
use sb_types::{Fault, Name, OWNERS_MOST, Settings};
use std::alloc::Global;
use std::collections::VecDeque;

/// Whether one of the logs has this name.
fn is_owned<L: WriteLog>(name: &Name, logs: &[L]) -> bool
    ensures { result ≡ spec.is_owned name.now (map L.seen logs.now) }
{
    for log in logs {
        if log.owner() == name {
            return true;
        }
    }
    false
}

/// Whether two of the logs have one name.
fn has_twins<L: WriteLog>(logs: &[L]) -> bool
    ensures { result ≡ spec.has_twins (map L.seen logs.now) }
{
    let mut rest = logs;
    while let Some((log, others)) = rest.split_first() {
        if is_owned(log.owner(), others) {
            return true;
        }
        rest = others;
    }
    false
}

/// Whether each of the logs is of this cluster.
fn are_of<L: WriteLog>(cluster: &Name, logs: &[L]) -> bool
    ensures { result ≡ spec.are_of cluster.now (map L.seen logs.now) }
{
    for log in logs {
        if log.cluster() != cluster {
            return false;
        }
    }
    true
}

/// Why no world can be made from these logs: the first reason that holds, or `None`.
fn refusal<L: WriteLog>(settings: &Settings, logs: &[L]) -> Option<Fault>
    ensures { result ≡ spec.refusal settings.now (map L.seen logs.now) }
{
    if logs.is_empty() || logs.len() > OWNERS_MOST {
        return Some(Fault::BadSetting);
    }
    if has_twins(logs) {
        return Some(Fault::SameName);
    }
    if !are_of(&settings.cluster(), logs) {
        return Some(Fault::WrongCluster);
    }
    None
}

/// Opens the node of a log with the log's content. The faults of `WriteLog::load`, then `NoMemory`.
fn opened<L: WriteLog + Drop>(
    alloc: Global,
    settings: Settings,
    mut log: L,
) -> Result<Place<L>, Fault>
    ensures new { IfOk result (IsNew settings) }
    ensures name { IfOk result (λ p. p.me ≡ (L.seen log).owner) }
    ensures log { IfOk result (IsNodeOf (L.seen log)) }
    ensures sure { IsSure (L.seen log) → IfOk result (λ p. IsSure p.log) }
    ensures stood { OnOk result ((L.seen log).is_open ≡ true) }
    ensures why { IfErr result (IsOpeningFault (L.seen log)) }
{
    let me = *log.owner();
    let table = match log.load(alloc) {
        Ok(table) => table,
        Err(fault) => return Err(fault),
    };
    let core = NodeCore::open(alloc, settings, me, table)?;
    Ok(Place {
        me,
        log,
        core,
        waiting: VecDeque::new(alloc),
        is_up: true,
    })
}

/// Opens a node for each log, in their order, with the log's content. `BadSetting`, `SameName` or `WrongCluster`, in
/// this order. Then, log by log, the faults of `WriteLog::load`, and after them `NoMemory`.
pub(crate) fn places_of<L: WriteLog + Drop>(
    alloc: Global,
    settings: Settings,
    logs: Vec<L>,
) -> Result<Vec<Place<L>>, Fault>
    ensures refused { IfSome (spec.refusal settings (map L.seen logs.items)) (λ fault. result ≡ Err fault) }
    ensures why { IfErr result (λ fault. IsMakingFault (spec.refusal settings (map L.seen logs.items)) (map L.seen logs.items) fault) }
    ensures names { IfOk result (λ places. map (λ (p : world.Place). p.me) places.items ≡ map (λ (log : records.Log). log.owner) (map L.seen logs.items)) }
    ensures new { IfOk result (λ places. (p : world.Place) → Stands places.items p → IsNew settings p) }
    ensures logs { IfOk result (λ places. HaveNodes (map L.seen logs.items) places.items) }
    ensures sure { AreSureLogs (map L.seen logs.items) → IfOk result (λ places. (p : world.Place) → Stands places.items p → IsSure p.log) }
{
    if let Some(fault) = refusal(&settings, &logs) {
        return Err(fault);
    }
    let mut places = Vec::new(alloc);
    for log in logs {
        places.push(opened(alloc, settings, log)?)?;
    }
    Ok(places)
}
