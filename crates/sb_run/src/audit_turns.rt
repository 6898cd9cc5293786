//! Which peer is audited next.
ghost use Rattle.std.specs.Prelude.{◌≡◌, ◌≢◌, ℕ, ◌-◌, ◌&&◌, true, false, not, nat_eq, nat_lt, None, Some, slice_get, IfSome, IfOk, IfErr, replicate};
ghost use Rattle.sb_run.specs.Turns.{one_more};

use crate::dialer::{has_come, moment_after};
use sb_types::Fault;
use std::alloc::Global;
use std::time::{Clock, Instant};

/// How often the first audit of a peer is begun, if it does not come to its end.
const TRIES_MOST: u64 = 3;

/// Which peer is audited next: each once in a run, and then one after another.
#[derive(Drop)]
pub(crate) struct AuditTurns {
    /// How often the first audit of each peer may be begun.
    tries: Vec<u64>,
    /// Whose turn comes next.
    turn: usize,
    /// How long it is from one audit in turn to the next, in milliseconds; 0 for no audits.
    interval: u64,
    /// When the next audit in turn is due; none before this was first asked.
    due: Option<Instant>,
}

impl AuditTurns {
    /// So many peers, before the first audit. One comes in turn after each interval; 0 for no audits. `NoMemory`.
    pub(crate) fn new(alloc: Global, count: usize, interval: u64) -> Result<AuditTurns, Fault>
        ensures tries { IfOk result (λ turns. turns.tries.items ≡ replicate count TRIES_MOST) }
        ensures interval { IfOk result (λ turns. turns.interval ≡ interval) }
        ensures memory { IfErr result (λ fault. fault ≡ Fault.NoMemory) }
    {
        let tries = vec![in alloc; TRIES_MOST; count]?;
        Ok(AuditTurns {
            tries,
            turn: 0,
            interval,
            due: None,
        })
    }

    /// Begins the first audit of the peer at this index, if there are audits and it can be begun again, and returns whether it does.
    pub(crate) fn begin_first(&mut self, index: usize) -> bool
        ensures begins { IfSome (slice_get self.old.tries.items index) (λ left. result ≡ (nat_lt 0 left && not (nat_eq self.old.interval 0))) }
        ensures left { result ≡ true → IfSome (slice_get self.old.tries.items index) (λ left. slice_get self.new.tries.items index ≡ Some (left - 1)) }
        ensures refused { result ≡ false → slice_get self.new.tries.items index ≡ slice_get self.old.tries.items index }
        ensures others { (other : ℕ) → other ≢ index → slice_get self.new.tries.items other ≡ slice_get self.old.tries.items other }
        ensures interval { self.new.interval ≡ self.old.interval }
        ensures turn { self.new.turn ≡ self.old.turn }
    {
        if self.interval == 0 {
            return false;
        }
        match self.tries.get_mut(index) {
            Some(left) if *left > 0 => {
                *left -= 1;
                true
            }
            _ => false,
        }
    }

    /// The first audit of the peer at this index came to its end.
    pub(crate) fn note_audited(&mut self, index: usize)
        ensures audited { IfSome (slice_get self.old.tries.items index) (λ _. slice_get self.new.tries.items index ≡ Some 0) }
        ensures others { (other : ℕ) → other ≢ index → slice_get self.new.tries.items other ≡ slice_get self.old.tries.items other }
        ensures interval { self.new.interval ≡ self.old.interval }
        ensures turn { self.new.turn ≡ self.old.turn }
    {
        if let Some(left) = self.tries.get_mut(index) {
            *left = 0;
        }
    }

    /// Whose turn it is to be audited, if an audit is due. The next is due after the interval.
    pub(crate) fn take_due<Q: Clock>(&mut self, clock: &Q) -> Option<usize>
        ensures never { self.old.interval ≡ 0 → result ≡ None }
        ensures turn { IfSome result (λ turn. turn ≡ self.old.turn) }
        ensures same { (self.new.tries ≡ self.old.tries) × (self.new.turn ≡ self.old.turn) × (self.new.interval ≡ self.old.interval) }
    {
        if self.interval == 0 {
            return None;
        }
        let is_due = has_come(clock, self.due);
        if is_due || self.due.is_none() {
            self.due = moment_after(clock, self.interval);
        }
        if is_due { Some(self.turn) } else { None }
    }

    /// After the peer at this index comes the next.
    pub(crate) fn pass(&mut self, index: usize)
        ensures turn { self.new.turn ≡ one_more index }
        ensures same { (self.new.tries ≡ self.old.tries) × (self.new.interval ≡ self.old.interval) }
    {
        self.turn = index.saturating_add(1);
    }
}
