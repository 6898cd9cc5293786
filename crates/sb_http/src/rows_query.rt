//! The parameters of a query, and the places in a path.
ghost use Rattle.std.specs.Prelude.{◌≡◌, []};
ghost use Rattle.sb_http.specs.RowsQueries as spec;
ghost use Rattle.sb_http.specs.Asking.{GivesUnless};

use crate::operation::{Operation, Patience, Refusal};
use crate::parts::{parted, plain};
use sb_codec::Ask;
use sb_types::{Fault, Key, Name, Prefix};
use std::alloc::Global;

/// For how many seconds an answer may wait at most.
const SECONDS_MOST: u64 = 60;

/// The parameters that were read so far.
#[derive(Clone, Copy)]
pub struct RowsQuery {
    pub owner: Option<Name>,
    pub prefix: Option<Prefix>,
    pub key: Option<Key>,
    pub after: Option<(Name, Key)>,
    pub wait: Option<u64>,
    pub seen: Option<Key>,
}

/// Reads an owner.
fn owner_in(text: &[u8]) -> Result<Name, Refusal>
    ensures { result ≡ spec.owner_in text.now }
{
    match Name::read(text) {
        Ok(name) => Ok(name),
        Err(_) => Err(Refusal::Bad(Fault::BadName)),
    }
}

/// Reads a key.
fn key_in(text: &[u8]) -> Result<Key, Refusal>
    ensures { result ≡ spec.key_in text.now }
{
    match Key::read(text) {
        Ok(key) => Ok(key),
        Err(_) => Err(Refusal::Bad(Fault::BadKey)),
    }
}

/// Reads a prefix of keys.
fn prefix_in(text: &[u8]) -> Result<Prefix, Refusal>
    ensures { result ≡ spec.prefix_in text.now }
{
    match Prefix::read(text) {
        Ok(prefix) => Ok(prefix),
        Err(_) => Err(Refusal::Bad(Fault::BadKey)),
    }
}

/// Reads `OWNER/KEY`. A name has no slash, so the first one parts them.
pub(crate) fn place_in(text: &[u8]) -> Result<(Name, Key), Refusal>
    ensures { result ≡ spec.place_in text.now }
{
    let Some((owner, key)) = parted(text, b'/') else {
        return Err(Refusal::BadPlace);
    };
    match owner_in(owner) {
        Err(why) => Err(why),
        Ok(owner) => match key_in(key) {
            Err(why) => Err(why),
            Ok(key) => Ok((owner, key)),
        },
    }
}

impl RowsQuery {
    /// No parameter was read.
    fn new() -> RowsQuery
        ensures { result ≡ spec.no_parameters }
    {
        RowsQuery {
            owner: None,
            prefix: None,
            key: None,
            after: None,
            wait: None,
            seen: None,
        }
    }

    /// Takes an owner.
    fn with_owner(self, text: &[u8]) -> Result<RowsQuery, Refusal>
        ensures { result ≡ spec.with_owner self text.now }
    {
        if self.owner.is_some() {
            return Err(Refusal::BadParameters);
        }
        match owner_in(text) {
            Ok(owner) => Ok(RowsQuery {
                owner: Some(owner),
                ..self
            }),
            Err(why) => Err(why),
        }
    }

    /// Takes a prefix.
    fn with_prefix(self, text: &[u8]) -> Result<RowsQuery, Refusal>
        ensures { result ≡ spec.with_prefix self text.now }
    {
        if self.prefix.is_some() {
            return Err(Refusal::BadParameters);
        }
        match prefix_in(text) {
            Ok(prefix) => Ok(RowsQuery {
                prefix: Some(prefix),
                ..self
            }),
            Err(why) => Err(why),
        }
    }

    /// Takes a key.
    fn with_key(self, text: &[u8]) -> Result<RowsQuery, Refusal>
        ensures { result ≡ spec.with_key self text.now }
    {
        if self.key.is_some() {
            return Err(Refusal::BadParameters);
        }
        match key_in(text) {
            Ok(key) => Ok(RowsQuery {
                key: Some(key),
                ..self
            }),
            Err(why) => Err(why),
        }
    }

    /// Takes the place after which rows are asked for.
    fn with_after(self, text: &[u8]) -> Result<RowsQuery, Refusal>
        ensures { result ≡ spec.with_after self text.now }
    {
        if self.after.is_some() {
            return Err(Refusal::BadParameters);
        }
        match place_in(text) {
            Ok(place) => Ok(RowsQuery {
                after: Some(place),
                ..self
            }),
            Err(why) => Err(why),
        }
    }

    /// Takes for how long the answer may wait.
    fn with_wait(self, text: &[u8]) -> Result<RowsQuery, Refusal>
        ensures { result ≡ spec.with_wait self text.now }
    {
        if self.wait.is_some() {
            return Err(Refusal::BadParameters);
        }
        match seconds_in(text) {
            Some(seconds) => Ok(RowsQuery {
                wait: Some(seconds),
                ..self
            }),
            None => Err(Refusal::BadWait),
        }
    }

    /// Takes the mark of the rows that were seen.
    fn with_seen(self, text: &[u8]) -> Result<RowsQuery, Refusal>
        ensures { result ≡ spec.with_seen self text.now }
    {
        if self.seen.is_some() {
            return Err(Refusal::BadParameters);
        }
        match key_in(text) {
            Ok(mark) => Ok(RowsQuery {
                seen: Some(mark),
                ..self
            }),
            Err(_) => Err(Refusal::BadWait),
        }
    }

    /// Takes the parameter of this name, if it is one of a poll.
    fn with_poll_parameter(self, name: &[u8], value: &[u8]) -> Result<RowsQuery, Refusal>
        ensures { result ≡ spec.with_poll_parameter self name.now value.now }
    {
        if name == b"wait".as_slice() {
            self.with_wait(value)
        } else if name == b"seen".as_slice() {
            self.with_seen(value)
        } else {
            Err(Refusal::UnknownParameter)
        }
    }

    /// Takes the parameter of this name.
    fn with_parameter(self, name: &[u8], value: &[u8]) -> Result<RowsQuery, Refusal>
        ensures { result ≡ spec.with_parameter self name.now value.now }
    {
        if name == b"owner".as_slice() {
            self.with_owner(value)
        } else if name == b"prefix".as_slice() {
            self.with_prefix(value)
        } else if name == b"key".as_slice() {
            self.with_key(value)
        } else if name == b"after".as_slice() {
            self.with_after(value)
        } else {
            self.with_poll_parameter(name, value)
        }
    }

    /// Takes a part of the query, `NAME=VALUE` or nothing. `NoMemory`.
    fn with_part(self, alloc: Global, part: &[u8]) -> Result<RowsQuery, Refusal>
        ensures { GivesUnless result (spec.with_part self part.now) }
    {
        if part.is_empty() {
            return Ok(self);
        }
        let Some((name, value)) = parted(part, b'=') else {
            return Err(Refusal::UnknownParameter);
        };
        match plain(alloc, value) {
            Ok(value) => self.with_parameter(name, &value),
            Err(_) => Err(Refusal::NoMemory),
        }
    }

    /// Takes all parts of a query, from the first on. `NoMemory`.
    #[tactic(auto, using(crate::proofs::Parting::goes_on, crate::proofs::Parting::stops, crate::proofs::Parting::ends))]
    fn with_query(self, alloc: Global, query: &[u8]) -> Result<RowsQuery, Refusal>
        ensures { GivesUnless result (spec.with_query self query.now) }
    {
        let mut taken = self;
        let mut rest = query;
        while let Some((part, others)) = parted(rest, b'&') {
            match taken.with_part(alloc, part) {
                Ok(next) => taken = next,
                Err(why) => return Err(why),
            }
            rest = others;
        }
        taken.with_part(alloc, rest)
    }

    /// What these parameters ask for: a row if they have a key, and rows if not.
    fn asked(self) -> Result<Operation, Refusal>
        ensures { result ≡ spec.asked_with self }
    {
        let Some(key) = self.key else {
            let ask = rows_asked(self.owner, self.prefix, self.after);
            return polled(ask, self.wait, self.seen);
        };
        let is_polled = self.wait.is_some() || self.seen.is_some();
        match self.owner {
            Some(owner) if self.prefix.is_none() && self.after.is_none() && !is_polled => {
                Ok(Operation::Row(owner, key))
            }
            _ => Err(Refusal::BadParameters),
        }
    }
}

impl RowsQuery {
    /// The key of these parameters, if they have nothing else.
    fn only_key(self) -> Result<Key, Refusal>
        ensures { result ≡ spec.only_key self }
    {
        let has_others = self.owner.is_some() || self.prefix.is_some() || self.after.is_some();
        let is_polled = self.wait.is_some() || self.seen.is_some();
        match self.key {
            Some(key) if !has_others && !is_polled => Ok(key),
            Some(_) => Err(Refusal::BadParameters),
            None => Err(Refusal::NoKey),
        }
    }
}

/// A page of rows, or a poll for it. A mark goes with a time to wait.
fn polled(ask: Ask, wait: Option<u64>, seen: Option<Key>) -> Result<Operation, Refusal>
    ensures { result ≡ spec.polled ask wait seen }
{
    match wait {
        Some(seconds) => Ok(Operation::Poll(ask, Patience { seconds, seen })),
        None if seen.is_none() => Ok(Operation::Rows(ask)),
        None => Err(Refusal::BadWait),
    }
}

/// Reads up to 60 seconds, such as `5s` and `30s`.
fn seconds_in(text: &[u8]) -> Option<u64>
    ensures { result ≡ spec.seconds_in text.now }
{
    match text {
        [one, b's'] if one.is_ascii_digit() => Some(u64::from(*one - b'0')),
        [ten, one, b's'] if ten.is_ascii_digit() && one.is_ascii_digit() => {
            let seconds = 10 * u64::from(*ten - b'0') + u64::from(*one - b'0');
            if seconds <= SECONDS_MOST {
                Some(seconds)
            } else {
                None
            }
        }
        _ => None,
    }
}

/// The rows that are asked for. Without a prefix, those of all keys.
fn rows_asked(owner: Option<Name>, prefix: Option<Prefix>, after: Option<(Name, Key)>) -> Ask
    ensures { result ≡ spec.rows_asked owner prefix after }
{
    let prefix = match prefix {
        Some(prefix) => prefix,
        None => every_key(),
    };
    Ask {
        owner,
        prefix,
        after,
    }
}

/// The prefix of all keys.
fn every_key() -> Prefix
    ensures { result ≡ [] }
{
    match Prefix::read(b"") {
        Ok(prefix) => prefix,
        Err(_) => unreachable!(),
    }
}

/// What a query for rows asks for. `NoMemory`.
pub(crate) fn query_asked(alloc: Global, query: &[u8]) -> Result<Operation, Refusal>
    ensures { GivesUnless result (spec.query_asked query.now) }
{
    match RowsQuery::new().with_query(alloc, query) {
        Ok(taken) => taken.asked(),
        Err(why) => Err(why),
    }
}

/// The key that a query names, and nothing else. `NoMemory`.
pub(crate) fn key_asked_by(alloc: Global, query: &[u8]) -> Result<Key, Refusal>
    ensures { GivesUnless result (spec.key_asked_by query.now) }
{
    match RowsQuery::new().with_query(alloc, query) {
        Ok(taken) => taken.only_key(),
        Err(why) => Err(why),
    }
}

/// The key that is the end of a path. `NoMemory`.
pub(crate) fn key_at(alloc: Global, place: &[u8]) -> Result<Key, Refusal>
    ensures { GivesUnless result (spec.key_at place.now) }
{
    match plain(alloc, place) {
        Ok(key) => key_in(&key),
        Err(_) => Err(Refusal::NoMemory),
    }
}

/// What the path of a row asks for, by the part `OWNER/KEY` of it. `NoMemory`.
pub(crate) fn row_asked(alloc: Global, place: &[u8]) -> Result<Operation, Refusal>
    ensures { GivesUnless result (spec.row_asked place.now) }
{
    let place = match plain(alloc, place) {
        Ok(place) => place,
        Err(_) => return Err(Refusal::NoMemory),
    };
    match place_in(&place) {
        Ok((owner, key)) => Ok(Operation::Row(owner, key)),
        Err(why) => Err(why),
    }
}
