//! Owners whose held version rose.
ghost use Rattle.std.specs.Prelude.{◌≡◌, IfErr, OnOk, MatchBool};
ghost use Rattle.sb_budget.specs.Backlogs.{with_version};
ghost use Rattle.sb_directory.specs.Risen as spec;

use sb_budget::Backlog;
use sb_holdings::Holdings;
use sb_types::{Fault, Name};

/// Adds an owner to the backlog, with the version up to which it was held. An owner that is there keeps its version. It says
/// whether there was memory for that. If there was none, nothing changes.
pub(crate) fn add_owner(news: &mut Backlog, owner: Name, version: u64) -> bool
    ensures { MatchBool result (news.new ≡ with_version news.old owner version) (news.new ≡ news.old) }
{
    match news.add(owner, version) {
        Ok(()) => true,
        Err(_) => false,
    }
}

/// Adds each of these owners that is held above its version to the backlog, with that version. An owner that is there keeps
/// its version. `NoMemory`, with some of them added.
pub(crate) fn add_risen(
    news: &mut Backlog,
    holdings: &Holdings,
    versions: &[(Name, u64)],
) -> Result<(), Fault>
    ensures ok { OnOk result (news.new ≡ spec.with_risen news.old holdings.now versions.now) }
    ensures memory { IfErr result (λ fault. fault ≡ Fault.NoMemory) }
{
    for pair in versions {
        let (owner, version) = *pair;
        if holdings.upto(&owner) > version {
            news.add(owner, version)?;
        }
    }
    Ok(())
}
