//! When each owner was heard last: when the version rose up to which the node holds it.
ghost use Rattle.std.specs.Prelude.{◌≡◌, IfErr};
ghost use Rattle.sb_run.specs.HttpReads as spec;

use sb_codec::{Ages, OwnerAge};
use sb_types::{Fault, Name, OWNERS_MOST};
use std::alloc::Global;
use std::sync::{Mutex, Wait};
use std::time::{Clock, Instant};

/// An owner, and when the version that is held of it rose last.
#[derive(Clone, Copy)]
struct HeardOwner {
    owner: Name,
    at: Instant,
}

/// How many owners have a time: all that a node may hold, and itself.
const HEARD_MOST: usize = OWNERS_MOST + 1;

/// When each owner was heard last, in ascending order of the names.
#[derive(Drop)]
struct HeardList {
    all: Vec<HeardOwner>,
}

impl HeardList {
    /// Notes that an owner was heard at this time. An owner for which there is no memory gets no time.
    fn note(&mut self, owner: &Name, at: Instant) {
        match self.all.binary_search_by_key(owner, |heard| heard.owner) {
            Ok(place) => self.all[place].at = at,
            Err(place) => {
                if self.all.len() < HEARD_MOST {
                    let _ = self.all.insert(place, HeardOwner { owner: *owner, at });
                }
            }
        }
    }

    /// How many milliseconds before this time each owner was heard. `NoMemory`.
    fn ages(&self, alloc: Global, now: Instant) -> Result<Vec<OwnerAge>, Fault>
        ensures memory { IfErr result (λ fault. fault ≡ Fault.NoMemory) }
    {
        let mut ages = Vec::new(alloc);
        for heard in &self.all {
            let passed = now.saturating_duration_since(heard.at).as_millis();
            ages.push(OwnerAge {
                owner: heard.owner,
                age: u64::try_from(passed).unwrap_or(u64::MAX),
            })?;
        }
        Ok(ages)
    }
}

/// How many milliseconds ago an owner was heard, if these ages say that.
pub(crate) fn age_of(ages: &Ages, owner: &Name) -> Option<u64>
    ensures { result ≡ spec.age_of owner.now ages.now }
{
    let list = ages.list();
    match list.binary_search_by_key(owner, |heard| heard.owner) {
        Ok(place) => Some(list[place].age),
        Err(_) => None,
    }
}

/// When each owner was heard last, by the clock of the node.
#[derive(Drop)]
pub(crate) struct HeardTimes {
    alloc: Global,
    owners: Mutex<HeardList>,
}

impl HeardTimes {
    /// The node itself is heard now, and nobody else was heard yet.
    pub(crate) fn new<Q: Clock>(rt: &Q, alloc: Global, me: &Name) -> HeardTimes {
        let mut owners = HeardList {
            all: Vec::new(alloc),
        };
        if let Ok(now) = Instant::now(rt) {
            owners.note(me, now);
        }
        HeardTimes {
            alloc,
            owners: Mutex::new(owners),
        }
    }

    /// Notes that an owner is heard now.
    pub(crate) fn note<Q: Wait + Clock>(&self, rt: &Q, owner: &Name) {
        if let Ok(now) = Instant::now(rt) {
            self.owners.lock(rt).note(owner, now);
        }
    }

    /// The same as `ages`, or nothing if memory is missing.
    pub(crate) fn known_ages<Q: Wait + Clock>(&self, rt: &Q) -> Vec<OwnerAge> {
        match self.ages(rt) {
            Ok(ages) => ages,
            Err(_) => Vec::new(self.alloc),
        }
    }

    /// How many milliseconds ago each owner was heard, in ascending order of the names. `NoMemory`.
    pub(crate) fn ages<Q: Wait + Clock>(&self, rt: &Q) -> Result<Vec<OwnerAge>, Fault>
        ensures memory { IfErr result (λ fault. fault ≡ Fault.NoMemory) }
    {
        match Instant::now(rt) {
            Ok(now) => self.owners.lock(rt).ages(self.alloc, now),
            Err(_) => Ok(Vec::new(self.alloc)),
        }
    }
}
