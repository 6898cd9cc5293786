//! How a watch learns that something may have changed: its node reports that, or enough time has passed.
use crate::asking::noting_stream;
use crate::pausing::{Pauses, Wake};
use crate::socket_stamp::{SocketStamp, stamp_of};
use sb_codec::{Ask, AskChange};
use sb_types::Fault;
use std::os::unix::net::UnixStream;

/// For how many milliseconds a node is asked to wait for a change.
const WAIT: u64 = 10_000;

/// After how many milliseconds of waiting for its node a watch looks at the socket again.
const LISTEN_TIME: u64 = 1_000;

/// How often it looks at the most. That takes longer than the node was asked to wait.
const LOOKS_MOST: u64 = 20;

/// After how many pauses a node that reports no changes is asked again whether it does.
const PAUSES_WITHOUT: u64 = 25;

/// How a watch waits between two askings.
#[derive(Clone, Copy)]
pub struct WatchPace {
    /// How many milliseconds it waits at least, if its node reports changes to it.
    pub every: u64,
    /// How many milliseconds it waits if its node does not.
    pub untold: u64,
    /// Whether it asks its node to tell it.
    pub is_told: bool,
}

/// A connection over which a node reports the next change, and the socket that it was made to.
#[derive(Drop)]
struct Told {
    stream: UnixStream,
    stamp: Option<SocketStamp>,
}

/// The source from which a watch learns that something may have changed.
pub(crate) struct ChangeSource<'r, 'a> {
    rt: &'r HostRuntime,
    control: &'a str,
    asked: AskChange,
    pace: WatchPace,
    pauses: Pauses,
    told: Option<Told>,
    /// For how many more pauses the node is not asked to tell.
    pauses_left: u64,
}

// It is written out, so that a caller does not prove again how each part is dropped.
impl Drop for ChangeSource<'_, '_> {
    fn drop(self) {
        let ChangeSource {
            rt: _,
            control: _,
            asked: _,
            pace: _,
            pauses: _pauses,
            told: _told,
            pauses_left: _,
        } = self;
    }
}

impl<'r, 'a> ChangeSource<'r, 'a> {
    /// A source of changes of these rows of the node at a control socket. `NoMemory`.
    pub(crate) fn new(
        rt: &'r HostRuntime,
        control: &'a str,
        asked: &Ask,
        pace: WatchPace,
    ) -> Result<ChangeSource<'r, 'a>, Fault> {
        Ok(ChangeSource {
            rt,
            control,
            asked: AskChange {
                owner: asked.owner,
                prefix: asked.prefix,
                wait: WAIT,
            },
            pace,
            pauses: Pauses::new(rt)?,
            told: None,
            pauses_left: 0,
        })
    }

    /// Has the node note what changes from here on. If the node does not do that, the watch goes on without.
    pub(crate) fn begin(&mut self) {
        self.told = None;
        if !self.pace.is_told {
            return;
        }
        if self.pauses_left > 0 {
            self.pauses_left -= 1;
            return;
        }
        let stamp = stamp_of(self.rt, self.control);
        match noting_stream(self.rt, self.control, &self.asked) {
            Ok(stream) => self.told = Some(Told { stream, stamp }),
            Err(failure) if failure.is_unreached() => {}
            Err(_) => self.pauses_left = PAUSES_WITHOUT,
        }
    }

    /// Waits until something may have changed since `begin`, and not long if time alone may change something.
    /// `WriteFailed` if standard output is closed.
    pub(crate) fn wait(&mut self, waits_for_time: bool) -> Result<(), Fault> {
        let told = self.told.take();
        let pause = match &told {
            Some(_) => self.pace.every,
            None => self.pace.untold,
        };
        if self.pauses.wait(self.rt, pause) {
            return Err(Fault::WriteFailed(0));
        }
        match told {
            Some(told) => {
                if waits_for_time {
                    self.wait_shortly(&told)
                } else {
                    self.wait_for(&told)
                }
            }
            None => Ok(()),
        }
    }

    /// Waits for what is left of the pause that it would make if the node reported no changes, or until the node sends something.
    fn wait_shortly(&mut self, told: &Told) -> Result<(), Fault> {
        if !self.pauses.listen_to(&told.stream) {
            return Ok(());
        }
        let rest = self.pace.untold.saturating_sub(self.pace.every);
        match self.pauses.listen(self.rt, rest) {
            Wake::OutputClosed => Err(Fault::WriteFailed(0)),
            Wake::Told | Wake::Silent => Ok(()),
        }
    }

    /// Waits until the node sends something or ends the connection, or until there is another socket at its path.
    fn wait_for(&mut self, told: &Told) -> Result<(), Fault> {
        if !self.pauses.listen_to(&told.stream) {
            return Ok(());
        }
        for _ in 0..LOOKS_MOST {
            match self.pauses.listen(self.rt, LISTEN_TIME) {
                Wake::OutputClosed => return Err(Fault::WriteFailed(0)),
                Wake::Told => return Ok(()),
                Wake::Silent => {
                    if stamp_of(self.rt, self.control) != told.stamp {
                        return Ok(());
                    }
                }
            }
        }
        Ok(())
    }
}
