//! A disk that fails a call: only that one, or each call from then on.
ghost use Rattle.std.specs.Prelude.{◌≡◌, ◌+◌, ◌&&◌, false, not};
ghost use Rattle.sqlite_disk.specs.Disk.{CountsFault};
ghost use Rattle.sqlite_disk.specs.Refusal.{finds_no_room};

use sqlite_disk::{Disk, Tally};
use std::io;

/// What comes after a call that failed.
#[derive(Clone, Copy, PartialEq, Eq, Debug)]
pub enum After {
    /// Each call fails.
    Failing,
    /// Each call is answered.
    Answering,
}

/// A disk that answers so many calls, and fails the next.
#[derive(Drop)]
pub struct Faulty<D: Disk> {
    disk: D,
    calls_left: u64,
    after: After,
    refused: u64,
    sync_refused: bool,
}

impl<D: Disk> Faulty<D> {
    pub fn new(disk: D, calls: u64, after: After) -> Faulty<D> {
        Faulty {
            disk,
            calls_left: calls,
            after,
            refused: 0,
            sync_refused: false,
        }
    }
}

/// Counts a call. It fails if none is left.
fn spend(calls_left: &mut u64, after: After, refused: &mut u64) -> io::Result<()>
    ensures faults { CountsFault result refused.old refused.new }
    ensures kind { finds_no_room result ≡ false }
{
    if *calls_left > 0 {
        *calls_left -= 1;
        return Ok(());
    }
    *refused = refused.saturating_add(1);
    if after == After::Answering {
        *calls_left = u64::MAX;
    }
    Err(io::Error::other("a call that fails"))
}

impl<D: Disk> Disk for Faulty<D> {
    ghost seen = { λ f. D.Disk.seen f.disk };

    ghost may_leave = { λ f. D.Disk.may_leave f.disk };

    ghost is_usable = { λ f. D.Disk.is_usable f.disk && not f.sync_refused };

    ghost faults = { λ f. D.Disk.faults f.disk + f.refused };

    ghost tally_of = { λ f. D.Disk.tally_of f.disk };

    ghost is_rotten = { λ f. D.Disk.is_rotten f.disk };

    ghost key_of = { λ f. D.Disk.key_of f.disk };

    ghost is_clean = { λ f. D.Disk.is_clean f.disk };

    ghost is_fair = { λ f. D.Disk.is_fair f.disk };

    ghost fair_if_clean = { λ f. D.Disk.fair_if_clean f.disk };

    ghost seen_may_stay = { λ f. D.Disk.seen_may_stay f.disk };

    ghost is_mixing = { λ f. D.Disk.is_mixing f.disk };

    fn mixes(&self) -> bool {
        self.disk.mixes()
    }

    fn key(&self) -> u64 {
        self.disk.key()
    }

    fn tally(&self) -> Tally {
        self.disk.tally()
    }

    fn may_be_used(&self) -> bool {
        self.disk.may_be_used() && !self.sync_refused
    }

    fn len(&mut self) -> io::Result<usize> {
        spend(&mut self.calls_left, self.after, &mut self.refused)?;
        self.disk.len()
    }

    fn read_at(&mut self, at: usize, buf: &mut [u8]) -> io::Result<()> {
        spend(&mut self.calls_left, self.after, &mut self.refused)?;
        self.disk.read_at(at, buf)
    }

    fn read_checked(&mut self, key: u64, want: u64, at: usize, buf: &mut [u8]) -> io::Result<()> {
        spend(&mut self.calls_left, self.after, &mut self.refused)?;
        self.disk.read_checked(key, want, at, buf)
    }

    fn write_at(&mut self, at: usize, bytes: &[u8]) -> io::Result<()> {
        spend(&mut self.calls_left, self.after, &mut self.refused)?;
        self.disk.write_at(at, bytes)
    }

    fn set_len(&mut self, len: usize) -> io::Result<()> {
        spend(&mut self.calls_left, self.after, &mut self.refused)?;
        self.disk.set_len(len)
    }

    fn sync(&mut self) -> io::Result<()> {
        if let Err(error) = spend(&mut self.calls_left, self.after, &mut self.refused) {
            self.sync_refused = true;
            return Err(error);
        }
        self.disk.sync()
    }
}
