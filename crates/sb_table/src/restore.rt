//! Tests a list of entries, and makes a table of it.

ghost use Rattle.std.specs.Prelude.{◌≡◌, ◌&&◌, nat_le, Ok};
ghost use Rattle.sb_types.specs.Faults.{Gives};
ghost use Rattle.sb_types.specs.Runs.{are_ascending, last_version};
ghost use Rattle.sb_table.specs.Plain.{IsPlainTable, plain_table};
ghost use Rattle.sb_table.specs.Floors.{are_live, are_table_entries};

use crate::entries::{Entries, is_dead};
use sb_types::{Fault, SharedEntry, are_keys_distinct};
use std::alloc::Global;

/// Returns whether a table with this held version and this floor can have these entries. It takes no memory.
pub(crate) fn are_table_entries(upto: u64, floor: u64, entries: &mut [SharedEntry]) -> bool
    ensures whether { result ≡ are_table_entries upto floor entries.old }
    ensures same { entries.new ≡ entries.old }
{
    floor <= upto && are_live_within(upto, floor, entries) && are_keys_distinct(entries)
}

/// Returns whether the versions ascend from 1 to at most `upto`, and no tombstone is at or below the floor. A tombstone
/// is the marker of a removed key.
fn are_live_within(upto: u64, floor: u64, entries: &[SharedEntry]) -> bool
    ensures { result ≡ (are_ascending 0 entries.now && (nat_le (last_version 0 entries.now) upto && are_live floor entries.now)) }
{
    let mut last = 0;
    for entry in entries {
        let version = entry.version();
        if version <= last || is_dead(entry.entry(), floor) {
            return false;
        }
        last = version;
    }
    last <= upto
}

/// Makes the entries of a table from this list, and shares them. The only fault is `NoMemory`, which drops them.
pub(crate) fn fill(alloc: Global, entries: Vec<SharedEntry>) -> Result<Entries, Fault>
    requires { IsPlainTable (plain_table entries.items) }
    ensures { Gives result (Ok (plain_table entries.items)) }
{
    let mut table = Entries::new(alloc);
    for entry in entries {
        table.push_shared(&entry)?;
    }
    Ok(table)
}
