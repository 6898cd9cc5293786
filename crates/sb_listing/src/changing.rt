//! What changed from one listing to the next.
ghost use Rattle.std.specs.Prelude.{◌≡◌, ◌++◌, List, map, OnOk, IfOk, IfErr};
ghost use Rattle.sb_codec.specs.Records as records;
ghost use Rattle.sb_listing.specs.Changes as spec;
ghost use Rattle.sb_listing.specs.Printed.{change_of};

use sb_codec::Row;
use sb_types::Fault;
use std::alloc::Global;
use std::cmp::Ordering;

/// A difference of two listings. It borrows its row.
#[derive(Clone, Copy, Debug)]
pub enum RowChange<'a> {
    /// A row of the later listing. The earlier one has no row of its owner and key, or one of another version or value.
    Set(&'a Row),
    /// A row of the earlier listing. The later one has no row of its owner and key.
    Gone(&'a Row),
}

/// The order of two rows, by owner and then by key.
fn place_order(one: &Row, other: &Row) -> Ordering
    ensures { result ≡ spec.place_order one.now other.now }
{
    let owners = one.owner().bytes().cmp(other.owner().bytes());
    owners.then(one.key().bytes().cmp(other.key().bytes()))
}

/// Whether two rows of one owner and key have one version and value. The version alone would do if names were unique
/// and no older log were put back.
fn is_same(one: &Row, other: &Row) -> bool
    ensures { result ≡ spec.is_same one.now other.now }
{
    one.version() == other.version() && one.value().is_same(other.value())
}

/// Adds the changes up to and including the place of `row`, a row of the later listing. Returns the rows of the earlier
/// listing after that place. `NoMemory`.
fn pass_row<'a>(
    found: &mut Vec<RowChange<'a>>,
    earlier: &'a [Row],
    row: &'a Row,
) -> Result<&'a [Row], Fault>
    ensures found { IfOk result (λ rest. (next : List records.Row → List spec.RowChange) →
        map change_of found.new.items ++ next rest.now ≡ map change_of found.old.items ++ spec.changes_past_row row.now next earlier.now) }
    ensures memory { IfErr result (λ fault. fault ≡ Fault.NoMemory) }
{
    let mut rest = earlier;
    while let Some((one, others)) = rest.split_first() {
        match place_order(one, row) {
            Ordering::Less => {
                found.push(RowChange::Gone(one))?;
                rest = others;
            }
            Ordering::Equal => {
                if !is_same(one, row) {
                    found.push(RowChange::Set(row))?;
                }
                return Ok(others);
            }
            Ordering::Greater => {
                found.push(RowChange::Set(row))?;
                return Ok(rest);
            }
        }
    }
    found.push(RowChange::Set(row))?;
    Ok(rest)
}

/// Adds that these rows are gone. `NoMemory`.
fn add_gone<'a>(found: &mut Vec<RowChange<'a>>, rows: &'a [Row]) -> Result<(), Fault>
    ensures found { OnOk result (map change_of found.new.items ≡ map change_of found.old.items ++ map spec.Gone rows.now) }
    ensures memory { IfErr result (λ fault. fault ≡ Fault.NoMemory) }
{
    for row in rows {
        found.push(RowChange::Gone(row))?;
    }
    Ok(())
}

/// Returns what changed from an earlier listing to a later one, in ascending order of owner and key. It walks once
/// through both. If both ascend by owner and key, each once, the law `changes_tell_all` states which rows are reported.
/// `NoMemory`.
pub fn changes<'a>(
    alloc: Global,
    earlier: &'a [Row],
    later: &'a [Row],
) -> Result<Vec<RowChange<'a>>, Fault>
    ensures found { IfOk result (λ found. map change_of found.items ≡ spec.changes_between earlier.now later.now) }
    ensures memory { IfErr result (λ fault. fault ≡ Fault.NoMemory) }
{
    let mut found = Vec::new(alloc);
    let mut rest = earlier;
    for row in later {
        rest = pass_row(&mut found, rest, row)?;
    }
    add_gone(&mut found, rest)?;
    Ok(found)
}
