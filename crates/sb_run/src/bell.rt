//! The bell that wakes the threads that dial.
ghost use Rattle.std.specs.Prelude.{◌≡◌, IfErr};

use crossbeam_utils::sync::{Parker, Unparker};
use sb_types::{Delta, Fault};
use std::alloc::Global;
use std::sync::atomic::{AtomicBool, Ordering};

/// Wakes the threads that dial when there is something new to pass on.
#[derive(Drop)]
pub(crate) struct Bell {
    /// Wakes the thread of the turns.
    turns: Unparker,
    /// Wakes the thread that waits for news. If there is none, that of the turns does, and this wakes it.
    news: Unparker,
    /// Whether there is news that no burst has taken up.
    has_news: AtomicBool,
    /// Whether an owner may have come that was not held.
    has_new_owner: AtomicBool,
    /// Whether a peer sent writes after ones that are missing.
    has_gap: AtomicBool,
}

/// The threads that a bell wakes wait at them.
#[derive(Drop)]
pub(crate) struct Parkers {
    pub(crate) turns: Parker,
    pub(crate) news: Parker,
}

/// Wakes the thread that waits for news. The thread of the turns may be alone, and then it does.
fn waits_for_news(parkers: &Parkers, is_alone: bool) -> &Unparker {
    if is_alone {
        parkers.turns.unparker()
    } else {
        parkers.news.unparker()
    }
}

impl Bell {
    /// A bell, and what the threads that it wakes wait at. The thread of the turns may be alone, with none for news beside it.
    /// `NoMemory`.
    pub(crate) fn new(alloc: Global, is_alone: bool) -> Result<(Bell, Parkers), Fault>
        ensures { IfErr result (λ fault. fault ≡ Fault.NoMemory) }
    {
        let parkers = Parkers {
            turns: Parker::new(alloc)?,
            news: Parker::new(alloc)?,
        };
        let bell = Bell {
            turns: parkers.turns.unparker().clone()?,
            news: waits_for_news(&parkers, is_alone).clone()?,
            has_news: AtomicBool::new(false),
            has_new_owner: AtomicBool::new(false),
            has_gap: AtomicBool::new(false),
        };
        Ok((bell, parkers))
    }

    /// Notes that there is news, and whether it is of an owner that was not held.
    pub(crate) fn ring(&self, is_new_owner: bool) {
        if is_new_owner {
            self.has_new_owner.store(true, Ordering::SeqCst);
        }
        // Whoever rang before woke the thread that takes the news up.
        if !self.has_news.swap(true, Ordering::SeqCst) {
            self.wake_for_news();
        }
    }

    /// Wakes the thread that waits for news, without news.
    pub(crate) fn wake_for_news(&self) {
        self.news.unpark();
    }

    /// Wakes the threads without news.
    pub(crate) fn wake(&self) {
        self.turns.unpark();
        self.wake_for_news();
    }

    /// Whether there is news that was not taken.
    pub(crate) fn has_news(&self) -> bool {
        self.has_news.load(Ordering::SeqCst)
    }

    /// Whether there was news since this was last asked.
    pub(crate) fn take_news(&self) -> bool {
        self.has_news.swap(false, Ordering::SeqCst)
    }

    /// Whether a peer sent writes after ones that are missing, since this was last asked.
    pub(crate) fn take_gap(&self) -> bool {
        self.has_gap.swap(false, Ordering::SeqCst)
    }

    /// Whether an owner may have come since this was last asked.
    pub(crate) fn take_new_owner(&self) -> bool {
        self.has_new_owner.swap(false, Ordering::SeqCst)
    }
}

impl Bell {
    /// Notes that a delta brought something new.
    pub(crate) fn enter(&self, delta: &Delta) {
        let is_new_owner = delta.blocks().iter().any(|block| block.after() == 0);
        self.ring(is_new_owner);
    }

    /// Notes that a peer sent writes after ones that are missing.
    pub(crate) fn miss(&self) {
        self.has_gap.store(true, Ordering::SeqCst);
        self.turns.unpark();
    }
}
