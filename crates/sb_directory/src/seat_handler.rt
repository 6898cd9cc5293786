//! A directory at one end of a session.
ghost use Rattle.std.specs.Prelude.{◌≡◌};

use crate::directory::Directory;
use crate::receipt::Applied;
use crate::seat::ReaderSeat;
use crate::tag::DirectoryTag;
use sb_digest::Digest;
use sb_holdings::Report;
use sb_session::{Handler, ReceivedDelta};
use sb_types::{Delta, Fault, Name};
use std::marker::Model;
use std::sync::Wait;

/// A directory at one end of a session, which calls it from a seat of its own. Contracts see it as the seat.
#[derive(Drop)]
pub struct SeatHandler<'a, S: DirectoryTag, R: Wait + Drop, Q: Wait> {
    rt: &'a Q,
    directory: &'a Directory<S, R>,
    seat: ReaderSeat<S>,
}

impl<'a, S: DirectoryTag, R: Wait + Drop, Q: Wait> Model for SeatHandler<'a, S, R, Q> {
    ghost use Rattle.sb_directory.specs.Seats as spec;

    ghost Value = { spec.Seat };

    ghost view = { λ s. s.seat };
}

impl<'a, S: DirectoryTag, R: Wait + Drop, Q: Wait> SeatHandler<'a, S, R, Q> {
    /// A directory that is called from this seat.
    pub fn new(
        rt: &'a Q,
        directory: &'a Directory<S, R>,
        seat: ReaderSeat<S>,
    ) -> SeatHandler<'a, S, R, Q>
        ensures { result ≡ seat }
    {
        SeatHandler {
            rt,
            directory,
            seat,
        }
    }

    /// The seat, once the session is over.
    pub fn into_seat(self) -> ReaderSeat<S>
        ensures { result ≡ self.entry }
    {
        let SeatHandler {
            rt: _,
            directory: _,
            seat,
        } = self;
        seat
    }
}

impl<'a, S: DirectoryTag, R: Wait + Drop, Q: Wait> Handler for SeatHandler<'a, S, R, Q> {
    ghost use Rattle.sb_directory.specs.Serving.{Serves, IsStill, IsLater};
    ghost use Rattle.sb_directory.specs.Handling.{serves-nothing, still-same, still-on, serves-later, later-same, later-on};

    // Other seats may have entered anything since the last call.
    ghost step = { Serves S.opening S.settings };

    ghost stays = { IsStill };

    ghost grows = { IsLater };

    fn digest(&mut self, from: Option<Name>, want: bool) -> Result<Digest, Fault> {
        self.directory.digest(self.rt, &mut self.seat, from, want)
    }

    fn deltas(&mut self, theirs: &Digest) -> Result<Delta, Fault> {
        self.directory.deltas(self.rt, &mut self.seat, theirs)
    }

    fn apply(&mut self, delta: &ReceivedDelta) -> Result<Report, Fault> {
        match self.directory.apply(self.rt, &mut self.seat, delta) {
            Ok(Applied { ends, shown: _ }) => Ok(ends),
            Err(fault) => Err(fault),
        }
    }

    ghost enters_nothing = { serves-nothing S.opening S.settings };

    ghost stays_still = { still-same };

    ghost stays_on = { still-on };

    ghost step_grows = { serves-later S.opening S.settings };

    ghost grows_still = { later-same };

    ghost grows_on = { later-on };
}
