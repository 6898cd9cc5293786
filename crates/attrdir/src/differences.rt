//! What an audit found, in words.
use sb_directory::Difference;
use sb_types::{Entry, Slot};
use std::fmt;

/// An entry as `get` prints it, without its owner.
#[derive(Clone, Copy)]
struct EntryWords<'a>(&'a Entry);

impl fmt::Display for EntryWords<'_> {
    fn fmt<W: fmt::Write>(&self, f: &mut fmt::Formatter<W>) -> fmt::Result {
        let entry = self.0;
        let key = str::from_utf8(entry.key().bytes()).unwrap_or("");
        write!(f, "{key} {} ", entry.version())?;
        match entry.slot() {
            Slot::Set(value) => write!(f, "{value}"),
            Slot::Removed => f.write_str("removed"),
        }
    }
}

/// What a peer holds otherwise than the log.
#[derive(Clone, Copy)]
pub(crate) struct DifferenceWords<'a>(pub(crate) &'a Difference);

impl fmt::Display for DifferenceWords<'_> {
    fn fmt<W: fmt::Write>(&self, f: &mut fmt::Formatter<W>) -> fmt::Result {
        match self.0 {
            Difference::Foreign(found) => {
                write!(f, "has `{}`", EntryWords(&found.theirs))?;
                match &found.own {
                    Some(own) => write!(f, ", and the log has `{}`", EntryWords(own)),
                    None => f.write_str(", which the log never had"),
                }
            }
            Difference::Missing(own) => write!(f, "lacks `{}`, which the log has", EntryWords(own)),
        }
    }
}
