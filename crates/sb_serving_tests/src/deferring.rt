//! What a peer was offered in vain comes after all else that it lacks.
ghost use Rattle.std.specs.Prelude.{◌≡◌};

use crate::making::{key, name, new_node};
use crate::{got, same};
use sb_digest::Digest;
use sb_directory::{Directory, DirectoryTag, ReaderSeat};
use sb_node::NodeCore;
use sb_run::{Arrival, ForgottenOwners, Gate, GatePoint, Serving, Source, Taken, VainOffers};
use sb_testing::delta_of_write;
use sb_types::{Entry, Fault, Name, Slot, Value};
use sb_views::NewHistory;
use std::alloc::Global;
use std::io;
use std::io::Write;
use std::marker::Brand;
use std::process::Abort;
use std::sync::atomic::{AtomicUsize, Ordering};
use std::sync::ledger::Blank;
use std::sync::{Mutex, Wait};
use std::thread::Threads;

/// Hello of a node of the cluster c1, its digest, which holds nothing, and its Bye.
const ASKING: &[u8] = b"\xa7\x03\x00\x00\x00\x06\x01\x02c1\x01c\
    \xa7\x03\x00\x00\x00\x06\x02\x00\x00\x00\x00\x00\
    \xa7\x03\x00\x00\x00\x02\x04\x01";

/// How long a text is that leaves no room for another in a delta.
const TEXT: usize = 500;

/// The bytes of an answer: a Hello, and a delta of one block with one text.
const ANSWER: usize = 12 + 9 + 28 + 13 + TEXT;

/// Where an answer has the owner's name.
const OWNER_AT: usize = 22;

/// The peers that ask, one after another. Each has a letter as its name, and a space for none.
#[derive(Drop)]
struct Askers<'a, R> {
    rt: &'a R,
    names: &'a [u8],
    asked: AtomicUsize,
    heard: &'a Mutex<Vec<u8>>,
}

/// Adds to what all peers heard.
#[derive(Drop)]
struct Ear<'a, R> {
    rt: &'a R,
    heard: &'a Mutex<Vec<u8>>,
}

impl<R: Wait> Write for Ear<'_, R> {
    fn write(&mut self, buf: &[u8]) -> io::Result<usize> {
        self.heard.lock(self.rt).extend_from_slice(buf)?;
        Ok(buf.len())
    }

    fn flush(&mut self) -> io::Result<()> {
        Ok(())
    }
}

impl<'a, R: Wait + Sync> Source for Askers<'a, R> {
    type In = &'static [u8];

    type Out = Ear<'a, R>;

    ghost over = { λ askers. Unit {0} };

    ghost asks = { λ askers. ⊥ };

    ghost gives = { λ askers input. Unit {0} };

    fn next(&self) -> Option<Result<Taken<&'static [u8], Ear<'a, R>>, Fault>> {
        let place = self.asked.fetch_add(1, Ordering::SeqCst);
        let name = *self.names.get(place)?;
        let ear = Ear {
            rt: self.rt,
            heard: self.heard,
        };
        let arrival = Arrival {
            name: Name::read(&[name]).ok(),
            since: None,
        };
        Some(Ok(Taken::Session(1, arrival, ASKING, ear)))
    }
}

/// A node a that holds a long text of b and one of d.
fn node_with_texts(rt: &impl Abort, alloc: Global) -> NodeCore {
    let mut core = new_node(rt, alloc, 1);
    for owner in [b"b", b"d"] {
        let value = got(rt, Value::text(alloc, &[b'x'; TEXT]));
        let entry = Entry::new(key(rt, b"t"), 1, Slot::Set(value));
        let delta = got(rt, delta_of_write(alloc, name(rt, owner), entry));
        got(rt, core.apply(&delta));
    }
    core
}

/// A gate that turns nobody away, and counts the digests of peers whose names are known.
#[derive(Drop)]
struct Counting {
    digests: AtomicUsize,
}

impl Gate for Counting {
    ghost lets = { λ gate session point. Unit {0} };

    ghost turns_away = { λ gate session point. ⊥ };

    fn pass(&self, _session: u64, _point: GatePoint) -> bool {
        true
    }

    fn digest_came(&self, arrival: &Arrival, _theirs: &Digest) {
        if arrival.name.is_some() {
            self.digests.fetch_add(1, Ordering::SeqCst);
        }
    }
}

/// Serves these peers in turn. Their gate hears of the digest of each whose name is known.
fn serve_all<S: DirectoryTag + Send + Sync, R: Threads + Wait + Abort + Send + Sync>(
    rt: &R,
    alloc: Global,
    directory: &Directory<S, &R>,
    seats: Vec<ReaderSeat<S>>,
    askers: &Askers<'_, R>,
) {
    let (none, vain_offers) = (ForgottenOwners::none(alloc), VainOffers::new(alloc));
    let serving = Serving {
        rt,
        alloc,
        directory,
        forgotten: &none,
        vain_offers: &vain_offers,
        max_reads: 99,
    };
    let gate = Counting {
        digests: AtomicUsize::new(0),
    };
    let pooled = match serving.serve_pool(seats, askers, &gate) {
        Ok(pooled) => pooled,
        Err((fault, _)) => panic!(rt; "error: {fault:?}"),
    };
    same(rt, &pooled.faults, &0);
    let known = askers.names.iter().filter(|name| **name != b' ').count();
    same(rt, &gate.digests.load(Ordering::SeqCst), &known);
}

fn serve_from<S: DirectoryTag + Send + Sync, R: Threads + Wait + Abort + Send + Sync>(
    rt: &R,
    alloc: Global,
    new_history: NewHistory,
    blank: Blank,
    core: NodeCore,
    askers: &Askers<'_, R>,
)
    requires history { new_history.seen.book ≡ S.history }
    requires opening { S.opening ≡ core.node }
    requires settings { S.settings ≡ core.settings }
    requires name { blank.name ≡ S.name }
    requires parts { blank.parts ≡ S.parts }
    requires all { (1 ≡ S.seats) × (1 ≡ S.parts) }
{
    let made = Directory::<S, &R>::make(rt, alloc, new_history, blank, core, 1);
    let (directory, seats) = got(rt, made);
    serve_all(rt, alloc, &directory, seats, askers);
}

/// Whose texts these peers are offered, one after another.
fn offered<R: Threads + Wait + Abort + Send + Sync>(
    rt: &R,
    alloc: Global,
    names: &[u8],
) -> Vec<u8> {
    let heard = Mutex::new(Vec::new(alloc));
    let askers = Askers {
        rt,
        names,
        asked: AtomicUsize::new(0),
        heard: &heard,
    };
    let core = node_with_texts(rt, alloc);
    serve_from::<Brand, _>(rt, alloc, NewHistory::new(), Blank::new(1), core, &askers);
    let all = heard.lock(rt);
    let mut owners = Vec::new(alloc);
    for answer in all.chunks(ANSWER) {
        got(rt, owners.push(answer.get(OWNER_AT).copied().unwrap_or(0)));
    }
    owners
}

// c asks again and again, and never holds more.
#[test]
fn an_offer_in_vain_is_deferred(rt: HostRuntime) {
    let owners = offered(&rt, rt.alloc(), b"cccccc");
    same(&rt, &owners.as_slice(), &b"bdbdbd".as_slice());
}

// Two peers ask in turn. Neither is offered less for what the other was offered.
#[test]
fn peers_that_ask_in_turn_are_offered_the_same(rt: HostRuntime) {
    let owners = offered(&rt, rt.alloc(), b"cececece");
    same(&rt, &owners.as_slice(), &b"bbddbbdd".as_slice());
}

#[test]
fn an_unknown_peer_is_offered_the_same_again(rt: HostRuntime) {
    let owners = offered(&rt, rt.alloc(), b"   ");
    same(&rt, &owners.as_slice(), &b"bbb".as_slice());
}
