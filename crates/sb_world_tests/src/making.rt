//! Worlds that are not made, because a log cannot be read.
ghost use Rattle.std.specs.Prelude.{◌≡◌, [], false};
ghost use Rattle.sb_table.specs.Plain.{plain_table};

use crate::world::settings;
use crate::{got, name, same};
use sb_log::{Committed, StoreCause, WriteLog};
use sb_table::Table;
use sb_types::{Fault, Key, Name, Slot};
use sb_world::World;
use std::alloc::Global;
use std::marker::Model;
use std::process::Abort;

/// A log whose store gives other rows than were written. It closes when it is read, or is closed already.
#[derive(Drop)]
struct Damaged {
    owner: Name,
    cluster: Name,
    is_open: bool,
}

impl Model for Damaged {
    ghost use Rattle.std.specs.Prelude.{[], false};
    ghost use Rattle.sb_table.specs.Plain.{plain_table};
    ghost use Rattle.sb_log.specs.Records as records;

    ghost Value = { records.Log };

    ghost view = { λ l. record { owner = l.owner; cluster = l.cluster; most = 1; content = plain_table []; is_open = l.is_open; is_clean = l.is_open; is_sure = false } };
}

impl WriteLog for Damaged {
    ghost use Rattle.std.specs.Prelude.{◌≡◌, if◌then◌else◌, Some, None};
    ghost use Rattle.sb_log.specs.declared.cause.StoreCause.TheVariants.{Damaged};

    ghost seen = { λ l. l };

    ghost leaves = { λ l left. left ≡ l.content };

    ghost why = { λ l. if l.is_open then None else Some Damaged };

    fn owner(&self) -> &Name {
        &self.owner
    }

    fn cluster(&self) -> &Name {
        &self.cluster
    }

    fn cause(&self) -> Option<StoreCause> {
        if self.is_open {
            return None;
        }
        Some(StoreCause::Damaged)
    }

    fn put(&mut self, _key: &Key, _slot: &Slot) -> Result<Committed, Fault> {
        if !self.is_open {
            return Err(Fault::Closed);
        }
        self.is_open = false;
        Err(Fault::StoreFailed)
    }

    fn purge(&mut self, floor: u64) -> Result<(), Fault> {
        if !self.is_open {
            return Err(Fault::Closed);
        }
        if floor == 0 {
            return Ok(());
        }
        self.is_open = false;
        Err(Fault::StoreFailed)
    }

    fn load(&mut self, _alloc: Global) -> Result<Table, Fault> {
        if !self.is_open {
            return Err(Fault::Closed);
        }
        self.is_open = false;
        Err(Fault::LogDamaged)
    }

    fn close(self) -> Result<(), Fault> {
        Ok(())
    }
}

fn log(rt: &impl Abort, owner: &[u8], is_open: bool) -> Damaged {
    Damaged {
        owner: name(rt, owner),
        cluster: name(rt, b"sim"),
        is_open,
    }
}

/// The fault with which no world is made from the logs of a and b, each open or closed.
fn refusal(rt: &impl Abort, alloc: Global, is_a_open: bool, is_b_open: bool) -> Option<Fault> {
    let mut logs = Vec::new(alloc);
    got(rt, logs.push(log(rt, b"a", is_a_open)));
    got(rt, logs.push(log(rt, b"b", is_b_open)));
    World::new(alloc, settings(rt), logs).err()
}

#[test]
fn a_log_that_cannot_be_read_is_told_as_what_it_is(rt: HostRuntime) {
    let alloc = rt.alloc();
    same(
        &rt,
        &refusal(&rt, alloc, true, false),
        &Some(Fault::LogDamaged),
    );
    same(&rt, &refusal(&rt, alloc, false, true), &Some(Fault::Closed));
}
