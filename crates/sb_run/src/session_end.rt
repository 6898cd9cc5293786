//! How a session with a peer ended: a round, or a push.
ghost use Rattle.std.specs.Prelude.{◌≡◌};

use crate::dialer::{has_come, moment_after};
use crate::peers::PeerState;
use std::time::{Clock, Instant};

/// How long a session takes, at least, whose peer is a slow one, in milliseconds.
const SLOW_SESSION: u64 = 500;

/// How a session with a peer ended: a round, or a push.
#[derive(Clone, Copy)]
pub(crate) struct SessionEnd {
    /// How the peer is by it.
    pub(crate) state: PeerState,
    /// Whether it took as long as a connection to a peer may be idle.
    pub(crate) has_waited: bool,
    /// Whether it took so long that the peer is a slow one.
    pub(crate) is_slow: bool,
}

/// When a session was begun with a peer, as far as that counts at its end.
#[derive(Clone, Copy)]
pub(crate) struct SessionStart {
    /// From when on it has waited as long as a connection may be idle. None if there is no such limit.
    waited_from: Option<Instant>,
    /// From when on the peer is a slow one.
    slow_from: Option<Instant>,
}

impl SessionStart {
    /// A session that begins now, whose connection may be idle for so long, 0 for no limit.
    pub(crate) fn now<Q: Clock>(clock: &Q, idle: u64) -> SessionStart {
        SessionStart {
            waited_from: if idle == 0 {
                None
            } else {
                moment_after(clock, idle)
            },
            slow_from: moment_after(clock, SLOW_SESSION),
        }
    }

    /// How it ended, which it did now.
    pub(crate) fn ended<Q: Clock>(&self, clock: &Q, state: PeerState) -> SessionEnd
        ensures { result.state ≡ state }
    {
        SessionEnd {
            state,
            has_waited: has_come(clock, self.waited_from),
            is_slow: has_come(clock, self.slow_from),
        }
    }
}
