//! The page that answers a question for rows.
ghost use Rattle.std.specs.Prelude.{◌≡◌, ◌≤◌, ◌<◌, true, length, map, IfOk, IfErr};
ghost use Rattle.std.specs.List.{list_all};
ghost use Rattle.std.specs.Option.{option_copied};
ghost use Rattle.sb_codec.specs.Records.{rows_of};
ghost use Rattle.sb_codec.specs.Limits.{is_row};
ghost use Rattle.sb_views.specs.LiveRows.{row_lent};
ghost use Rattle.sb_query.specs.Pages as pages;
ghost use Rattle.sb_query.specs.Pages.{message_row, asked_rows, IsLongestPage};

use sb_codec::{Ask, Row, Rows};
use sb_types::{
    BUDGET_LEAST, BUDGET_MOST, BYTE_LENGTH, COUNT_LENGTH, Fault, HEADER_LENGTH, Key, Name,
};
use sb_views::Snapshot;
use std::alloc::Global;

/// The length of the frame of a page without rows: a header, the kind, whether more follow, and the count.
const EMPTY_FRAME: u64 = HEADER_LENGTH + BYTE_LENGTH + BYTE_LENGTH + COUNT_LENGTH;

/// Copies the row. `NoMemory`.
fn copy_of(alloc: Global, row: sb_views::LiveRow<'_>) -> Result<Row, Fault>
    ensures told { IfOk result (λ copy. copy ≡ message_row (row_lent row.entry)) }
    ensures memory { IfErr result (λ fault. fault ≡ Fault.NoMemory) }
{
    let value = row.live.value().copy(alloc)?;
    Row::new(*row.owner, *row.key, row.live.version(), value)
}

/// Returns whether rows are left, and the longest prefix of the rows whose page has a frame within the budget. The
/// first row without room is copied before it is measured, and then dropped. `NoMemory`.
fn gather(
    alloc: Global,
    asked: sb_views::LiveRows<'_>,
    budget: u64,
) -> Result<(bool, Vec<Row>), Fault>
    requires least { BUDGET_LEAST ≤ budget }
    requires most { budget ≤ BUDGET_MOST }
    ensures front { IfOk result (λ found. IsLongestPage budget (map message_row asked.entry) (rows_of found.0 found.1.items)) }
    ensures some { IfOk result (λ found. 0 < length (map message_row asked.entry) → 0 < length found.1.items) }
    ensures each { IfOk result (λ found. list_all is_row found.1.items ≡ true) }
    ensures memory { IfErr result (λ fault. fault ≡ Fault.NoMemory) }
{
    let mut rows = Vec::new(alloc);
    let mut room = budget - EMPTY_FRAME;
    for row in asked {
        let copy = copy_of(alloc, row)?;
        let Some(left) = room.checked_sub(copy.encoded_length()) else {
            return Ok((true, rows));
        };
        rows.push(copy)?;
        room = left;
    }
    Ok((false, rows))
}

/// Returns the longest page of the asked live rows whose frame has at most `budget` bytes, 1,024 to 65,536, and whether
/// rows are left. The page has at least one row if a row is asked for, so asking after its last row goes on.
/// `NoMemory`.
///
/// The call reads the rows of the page and one more. For each owner that it passes it makes one search, and reads at
/// most one row beyond the prefix.
pub fn answer(alloc: Global, snapshot: &Snapshot<'_>, ask: &Ask, budget: u64) -> Result<Rows, Fault>
    requires least { BUDGET_LEAST ≤ budget }
    requires most { budget ≤ BUDGET_MOST }
    ensures page { IfOk result (λ page. IsLongestPage budget (asked_rows ask.now snapshot.now) page) }
    ensures some { IfOk result (λ page. 0 < length (asked_rows ask.now snapshot.now) → 0 < length page.rows) }
    ensures memory { IfErr result (λ fault. fault ≡ Fault.NoMemory) }
{
    let asked = snapshot.rows_behind(ask.owner, ask.prefix, ask.after);
    let (more, rows) = gather(alloc, asked, budget)?;
    Rows::new(more, rows)
}

/// Returns the first row, if it has this owner and key. A page of an owner's rows whose keys begin with this key has
/// that row first, if it has it at all.
pub fn first_at<'a>(rows: &'a [Row], owner: &Name, key: &Key) -> Option<&'a Row>
    ensures { option_copied result ≡ pages.first_at rows.now owner.now key.now }
{
    match rows.split_first() {
        Some((row, _)) => {
            if row.owner() == owner && row.key() == key {
                Some(row)
            } else {
                None
            }
        }
        None => None,
    }
}
