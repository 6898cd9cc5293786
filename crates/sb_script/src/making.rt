//! The line that makes the world.
ghost use Rattle.std.specs.Prelude.{◌≡◌, ◌⊎◌, true, map, IfOk, IfErr, IfSome};
ghost use Rattle.sb_script.specs.declared.making.WorldLine as lines;
ghost use Rattle.sb_script.specs.Faults.{is_world_fault};
ghost use Rattle.sb_script.specs.Making as spec;
ghost use Rattle.sb_script.specs.Making.{IsWorldOf, empty_log, settings_of, names_in};

use crate::words::{are_words, number_of, words_of};
use sb_log::PlainLog;
use sb_types::{Fault, Name, Order, RawSettings, Settings};
use sb_world::World;
use std::alloc::Global;

/// The cluster of each world of a script.
const CLUSTER: &[u8] = b"sim";

/// `world BUDGET ORDER MAX NAME..`. The names are still words.
#[derive(Clone, Copy)]
struct WorldLine<'a> {
    budget: u64,
    order: Order,
    max_version: u64,
    names: &'a [&'a [u8]],
}

fn order_of(word: &[u8]) -> Option<Order> {
    match word {
        b"breadth" => Some(Order::Breadth),
        b"depth" => Some(Order::Depth),
        _ => None,
    }
}

impl<'a> WorldLine<'a> {
    /// Reads the world line of these words. Returns `None` if they are not one.
    fn parse(words: &'a [&'a [u8]]) -> Option<WorldLine<'a>> {
        match words {
            [b"world", budget, order, max_version, names @ ..]
                if are_words(words) && !names.is_empty() => {
                Some(WorldLine {
                    budget: number_of(budget)?,
                    order: order_of(order)?,
                    max_version: number_of(max_version)?,
                    names,
                })
            }
            _ => None,
        }
    }

    /// The settings of the line. `BadSetting`.
    fn settings(&self) -> Result<Settings, Fault>
        ensures settings { IfOk result (λ settings. settings ≡ settings_of self.now) }
        ensures fault { IfErr result (λ fault. fault ≡ Fault.BadSetting) }
    {
        Settings::check(RawSettings {
            cluster: CLUSTER,
            budget: self.budget,
            order: self.order,
            max_version: self.max_version,
            seats: 1,
            workers: 1,
        })
    }

    /// Makes the world of the line, with empty logs. `BadName`; `BadSetting`, also for more than 1,024 nodes;
    /// `SameName`; `NoMemory`.
    #[tactic(auto, using(crate::proofs::Faults::name_fault))]
    fn world(&self, alloc: Global) -> Result<World<PlainLog>, Fault>
        ensures world { IfOk result (IsWorldOf self.now) }
        ensures fault { IfErr result (λ fault. is_world_fault fault ≡ true) }
    {
        let names = names_of(alloc, self.names)?;
        let settings = self.settings()?;
        let logs = logs_of(alloc, &settings, &names)?;
        World::new(alloc, settings, logs)
    }
}

/// Reads the name of a word. `BadName`.
fn name_of(word: &[u8]) -> Result<Name, Fault>
    ensures name { IfOk result (λ name. name ≡ word.now) }
    ensures fault { IfErr result (λ fault. fault ≡ Fault.BadName) }
{
    Name::read(word)
}

/// Reads the names of these words. `BadName` or `NoMemory`, at the first word with a fault.
fn names_of(alloc: Global, words: &[&[u8]]) -> Result<Vec<Name>, Fault>
    ensures names { IfOk result (λ names. names.items ≡ map (λ word. word.now) words.now) }
    ensures fault { IfErr result (λ fault. (fault ≡ Fault.BadName) ⊎ (fault ≡ Fault.NoMemory)) }
{
    let mut names = Vec::new(alloc);
    for word in words {
        names.push(name_of(word)?)?;
    }
    Ok(names)
}

/// Makes an empty log for each name. `NoMemory`.
fn logs_of(alloc: Global, settings: &Settings, names: &[Name]) -> Result<Vec<PlainLog>, Fault>
    ensures logs { IfOk result (λ logs. logs.items ≡ map (empty_log settings.now) names.now) }
    ensures memory { IfErr result (λ fault. fault ≡ Fault.NoMemory) }
{
    let (cluster, max_version) = (settings.cluster(), settings.max_version());
    let mut logs = Vec::new(alloc);
    for name in names {
        logs.push(PlainLog::new(alloc, *name, cluster, max_version))?;
    }
    Ok(logs)
}

/// Makes the world of the first line, with empty logs. Returns `None` if that line is not a command. `BadName`;
/// `BadSetting`, also for more than 1,024 nodes; `SameName`; `NoMemory`.
pub(crate) fn make_world(alloc: Global, line: &[u8]) -> Result<Option<World<PlainLog>>, Fault>
    ensures world { IfOk result (λ made. IfSome made (λ world. (line : lines.WorldLine) × IsWorldOf line world)) }
    ensures fault { IfErr result (λ fault. is_world_fault fault ≡ true) }
{
    let words = words_of(alloc, line)?;
    match WorldLine::parse(&words) {
        Some(line) => Ok(Some(line.world(alloc)?)),
        None => Ok(None),
    }
}
