//! The beats of a node: own writes by which its peers hear that it lives.
ghost use Rattle.std.specs.Prelude.{◌≡◌, ◌*◌, ◌≤◌, true, false, None, IsSome, IfSome};
ghost use Rattle.std.specs.Time.{instant_nanos};
ghost use Rattle.sb_run.specs.Beating.{MakesBeat};

use crate::accepting::deadline_after;
use crate::dialer::RoundsTag;
use crate::node::Beat;
use crate::own_writes::OwnWrites;
use crate::threads::NodeContext;
use crate::write_request::WriteRequest;
use sb_directory::ReaderSeat;
use sb_log::WriteLog;
use std::sync::Wait;
use std::time::{Clock, Instant};

/// Which beat a node makes, and when the next one is due.
#[derive(Clone, Copy)]
pub(crate) struct BeatTurns {
    beat: Option<Beat>,
    next: Option<Instant>,
}

impl BeatTurns {
    /// The first beat is due a millisecond from now. There is none if none is given, or if the clock can't be read.
    pub(crate) fn new<Q: Clock>(clock: &Q, beat: Option<Beat>) -> BeatTurns
        ensures beat { result.beat ≡ beat }
        ensures none { beat ≡ None → result.next ≡ None }
    {
        let next = match beat {
            Some(_) => deadline_after(clock, 1),
            None => None,
        };
        BeatTurns { beat, next }
    }

    /// When the next beat is due; never if there is no moment.
    pub(crate) fn next(&self) -> Option<Instant>
        ensures { result ≡ self.now.next }
    {
        self.next
    }
}

impl<S: RoundsTag, H: Wait + Drop, Q: Wait + Clock> NodeContext<'_, S, H, Q> {
    /// Makes a beat: an own write as any other. If the log or the directory refuses it, there is no beat this time. With a closed
    /// log none is due any more.
    pub(crate) fn make_beat<L: WriteLog>(
        &self,
        beats: &mut BeatTurns,
        writes: &mut OwnWrites<L>,
        seat: &mut ReaderSeat<S>,
    )
        ensures closes { (L.seen writes.old.log).is_open ≡ true → (L.seen writes.new.log).is_open ≡ false → writes.new.has_failed ≡ true }
        // The write of the beat is put, or nothing is done.
        ensures beats { MakesBeat L.seen S.opening beats.old.beat writes.old.log writes.old.owed seat.old writes.new.log writes.new.owed seat.new }
        ensures same { beats.new.beat ≡ beats.old.beat }
        // With a closed log none is due any more.
        ensures over { IsSome beats.old.beat → IsSome (L.why writes.old.log) → beats.new.next ≡ None }
        ensures none { beats.old.beat ≡ None → beats.new ≡ beats.old }
        // The next one waits for the whole pause, whatever the clock said.
        ensures paused { IfSome beats.old.beat (λ beat. IfSome beats.new.next (λ moment. beat.pause * 1_000_000 ≤ instant_nanos moment)) }
    {
        let Some(beat) = beats.beat else {
            return;
        };
        if writes.cause().is_some() {
            beats.next = None;
            return;
        }
        let asked = WriteRequest::of_beat(&beat);
        let _ = writes.put(self.rt, self.directory, seat, asked);
        beats.next = deadline_after(self.rt, beat.pause);
    }
}
