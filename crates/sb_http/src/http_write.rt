//! The write that a request over HTTP asks for.
ghost use Rattle.std.specs.Prelude.{◌≡◌};

use sb_types::Write;
use std::marker::Model;

/// The write that a request over HTTP asks for. Only a service makes one, and it can't be copied. So a node that asks for one with
/// each of its own writes makes at most one for each such request.
#[derive(Drop)]
pub struct HttpWrite {
    write: Write,
}

impl Model for HttpWrite {
    ghost use Rattle.sb_types.specs.declared.entry.Write as entries;

    ghost Value = { entries.Write };

    ghost view = { λ asked. asked.write };
}

impl HttpWrite {
    /// This write, for which a request asked.
    pub(crate) fn new(write: Write) -> HttpWrite
        ensures { result ≡ write }
    {
        HttpWrite { write }
    }

    /// The same, as a write that anybody may make.
    pub fn into_write(self) -> Write
        ensures { result ≡ self }
    {
        let HttpWrite { write } = self;
        write
    }
}
