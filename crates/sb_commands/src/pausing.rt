//! The time between two askings of a watch.
use mio::unix::SourceFd;
use mio::{Events, Interest, Poll, Token};
use std::alloc::AllocError;
use std::os::fd::{AsRawFd, RawFd};
use std::os::unix::net::UnixStream;
use std::thread;
use std::time::Duration;

/// The descriptor of standard output.
const STANDARD_OUTPUT: RawFd = 1;

/// The token of standard output.
const OUTPUT: Token = Token(0);

/// The token of a connection to a node.
const NODE: Token = Token(1);

/// How a watch waits, and whether standard output is closed. A watch waits for a whole pause after each asking, and not by
/// the clock. So its askings never crowd.
#[derive(Drop)]
pub(crate) struct Pauses {
    /// What notices that standard output is closed, and that a node sends something. `None` if there is none.
    poll: Option<Poll>,
    /// Whether it is possible to wait for the end of standard output, which it is not for a file.
    has_output: bool,
    events: Events,
}

/// What ended a wait.
#[derive(Clone, Copy)]
pub(crate) enum Wake {
    /// Standard output is closed.
    OutputClosed,
    /// The node sent something, or ended the connection.
    Told,
    /// The time is over.
    Silent,
}

/// Has a poll notice that standard output is closed. Whether it can.
fn register_output(poll: &Poll) -> bool {
    let descriptor = STANDARD_OUTPUT;
    // The end is reported whatever is asked for. This interest adds only data out of band.
    poll.registry()
        .register(&mut SourceFd(&descriptor), OUTPUT, Interest::PRIORITY)
        .is_ok()
}

impl Pauses {
    /// Notices from here on that standard output is closed, if that is possible. `NoMemory`.
    pub(crate) fn new(rt: &HostRuntime) -> Result<Pauses, AllocError> {
        let poll = Poll::new(rt).ok();
        let has_output = match &poll {
            Some(poll) => register_output(poll),
            None => false,
        };
        Ok(Pauses {
            poll,
            has_output,
            events: Events::with_capacity(rt.alloc(), 2)?,
        })
    }

    /// Waits for so many milliseconds, or until standard output is closed. Returns whether it is closed.
    pub(crate) fn wait(&mut self, rt: &HostRuntime, milliseconds: u64) -> bool {
        let pause = Duration::from_millis(milliseconds);
        match &mut self.poll {
            Some(poll) if self.has_output => {
                let waited = poll.poll(&mut self.events, Some(pause));
                waited.is_ok() && self.events.iter().any(|event| event.is_write_closed())
            }
            _ => {
                thread::sleep(rt, pause);
                false
            }
        }
    }

    /// Has `listen` notice what comes over a connection, until that is dropped. Whether it can.
    pub(crate) fn listen_to(&mut self, stream: &UnixStream) -> bool {
        let descriptor = stream.as_raw_fd();
        match &self.poll {
            Some(poll) => poll
                .registry()
                .register(&mut SourceFd(&descriptor), NODE, Interest::READABLE)
                .is_ok(),
            None => false,
        }
    }

    /// Waits for so many milliseconds, or until something comes over the connection of `listen_to`, or until standard
    /// output is closed.
    pub(crate) fn listen(&mut self, rt: &HostRuntime, milliseconds: u64) -> Wake {
        let longest = Duration::from_millis(milliseconds);
        let Some(poll) = &mut self.poll else {
            thread::sleep(rt, longest);
            return Wake::Silent;
        };
        if poll.poll(&mut self.events, Some(longest)).is_err() {
            return Wake::Silent;
        }
        let mut wake = Wake::Silent;
        for event in &self.events {
            if event.token() == NODE {
                wake = Wake::Told;
            } else if event.is_write_closed() {
                return Wake::OutputClosed;
            }
        }
        wake
    }
}
