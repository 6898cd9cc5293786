//! What the writer does.
use crate::problem::Problem;
use crate::report::{Measured, spent_since};
use crate::sample::{Kinds, key_at, new_log, value_at};
use sb_directory::{Directory, DirectoryTag, ReaderSeat};
use sb_log::{Committed, PlainLog, WriteLog};
use sb_types::{Fault, Slot};
use sb_views::NodeTag;
use std::alloc::Global;
use std::sync::Wait;
use std::sync::atomic::{AtomicBool, Ordering};
use std::thread;
use std::time::{Clock, CpuClock, Duration};

/// How many milliseconds the writer sleeps between two writes.
const PAUSE: u64 = 1;

/// The most writes beside readers.
const WRITES_MOST: u64 = 1_000_000;

/// How many keys the writes use in turn.
const OWN_KEYS: u64 = 99;

/// A seat, and the log whose writes are entered from it.
#[derive(Drop)]
pub(crate) struct Writer<S: NodeTag> {
    seat: ReaderSeat<S>,
    log: PlainLog,
    written: u64,
    alloc: Global,
}

impl<S: DirectoryTag> Writer<S> {
    pub(crate) fn new(alloc: Global, seat: ReaderSeat<S>) -> Result<Writer<S>, Fault> {
        Ok(Writer {
            seat,
            log: new_log(alloc)?,
            written: 0,
            alloc,
        })
    }

    /// How many writes were committed.
    pub(crate) fn written(&self) -> u64 {
        self.written
    }

    fn commit(&mut self) -> Result<Committed, Fault> {
        let key = key_at(self.alloc, self.written % OWN_KEYS)?;
        let slot = Slot::Set(value_at(self.alloc, Kinds::Mixed, self.written)?);
        let committed = self.log.put(&key, &slot)?;
        self.written = self.written.saturating_add(1);
        Ok(committed)
    }

    /// Commits a write and enters it. Returns whether it is shown.
    fn write<R: Wait + Drop, Q: Wait>(
        &mut self,
        rt: &Q,
        directory: &Directory<S, R>,
    ) -> Result<bool, Fault> {
        let committed = self.commit()?;
        let receipt = directory.take_own(rt, &mut self.seat, &committed)?;
        Ok(receipt.shown)
    }

    /// Measures how long entering a committed write takes until it is shown, for so many writes.
    pub(crate) fn time_writes<R: Wait + Drop, Q: Wait + CpuClock>(
        &mut self,
        rt: &Q,
        directory: &Directory<S, R>,
        writes: u64,
    ) -> Result<Measured, Problem> {
        let mut shown = Measured::NOTHING;
        for _ in 0..writes {
            let committed = self.commit()?;
            let start = rt.thread_cpu_time()?;
            let receipt = directory.take_own(rt, &mut self.seat, &committed)?;
            shown.add(Measured::new(spent_since(rt, start)?, u64::from(receipt.shown)));
        }
        Ok(shown)
    }

    /// Writes each millisecond until the flag stops it.
    pub(crate) fn write_until<R: Wait + Drop, Q: Wait + Clock>(
        &mut self,
        rt: &Q,
        directory: &Directory<S, R>,
        stop: &AtomicBool,
    ) -> Result<(), Fault> {
        for _ in 0..WRITES_MOST {
            if stop.load(Ordering::SeqCst) {
                break;
            }
            self.write(rt, directory)?;
            thread::sleep(rt, Duration::from_millis(PAUSE));
        }
        Ok(())
    }
}
