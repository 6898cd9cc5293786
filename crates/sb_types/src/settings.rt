//! Settings within their limits.

ghost use Rattle.std.specs.Prelude.{◌≡◌, true, if◌then◌else◌, Ok, Err};
ghost use Rattle.sb_types.specs.Text as numbers;
ghost use Rattle.sb_types.specs.Limits.{are_settings};
ghost use Rattle.sb_types.specs.Given.{settings_from};

use crate::fault::Fault;
use crate::limits::{BUDGET_LEAST, BUDGET_MOST, SEATS_MOST, VERSION_MOST, WORKERS_MOST};
use crate::text::Name;
use std::marker::Model;

/// The order in which a delta lists what is available.
#[derive(Clone, Copy, Debug, PartialEq, Eq)]
pub enum Order {
    /// The oldest entry of every owner, then the next entry of every owner, and so on.
    Breadth,
    /// All entries of one owner before the next. The owner with the most entries comes first.
    Depth,
}

/// Settings as they were given, before any test.
#[derive(Clone, Copy, Debug)]
pub struct RawSettings<'a> {
    /// The cluster's name as unread bytes. A bad name is `BadSetting`, as any other bad setting is.
    pub cluster: &'a [u8],
    /// The greatest length of one frame in bytes, 1,024 to 65,536.
    pub budget: u64,
    /// The order in which a delta lists what is available.
    pub order: Order,
    /// The greatest version that the owner's log may assign, 1 to 2^40 - 1.
    pub max_version: u64,
    /// How many readers a directory has, 1 to 64.
    pub seats: u64,
    /// How many connections a node serves at once, 1 to 62.
    pub workers: u64,
}

/// Settings within their limits.
#[derive(Clone, Copy, Debug)]
pub struct Settings {
    cluster: Name,
    budget: u64,
    order: Order,
    max_version: u64,
    seats: u64,
    workers: u64,
}

impl Model for Settings {
    ghost use Rattle.std.specs.Prelude.{◌≡◌, true};
    ghost use Rattle.sb_types.specs.Records as records;

    ghost Value = { records.Settings };

    ghost use Rattle.sb_types.specs.Limits.{are_settings};

    ghost view = { λ s. record { cluster = s.cluster; budget = s.budget; order = s.order; max_version = s.max_version; seats = s.seats; workers = s.workers } };

    ghost invariant = { λ s. are_settings (record { cluster = s.cluster; budget = s.budget; order = s.order; max_version = s.max_version; seats = s.seats; workers = s.workers }) ≡ true };

    ghost inverse = { λ s. record { cluster = s.cluster; budget = s.budget; order = s.order; max_version = s.max_version; seats = s.seats; workers = s.workers } };
}

fn is_between(least: u64, most: u64, number: u64) -> bool
    ensures { result ≡ numbers.is_between least most number }
{
    least <= number && number <= most
}

impl Settings {
    /// Makes settings. Returns `BadSetting` if one of them is outside its limits, the cluster's name included.
    pub fn check(raw: RawSettings) -> Result<Settings, Fault>
        ensures { result ≡ (if are_settings (settings_from raw.entry) then Ok (settings_from raw.entry) else Err Fault.BadSetting) }
    {
        let Ok(cluster) = Name::read(raw.cluster) else {
            return Err(Fault::BadSetting);
        };
        if !is_between(BUDGET_LEAST, BUDGET_MOST, raw.budget)
            || !is_between(1, VERSION_MOST, raw.max_version)
            || !is_between(1, SEATS_MOST, raw.seats)
            || !is_between(1, WORKERS_MOST, raw.workers)
        {
            return Err(Fault::BadSetting);
        }
        Ok(Settings {
            cluster,
            budget: raw.budget,
            order: raw.order,
            max_version: raw.max_version,
            seats: raw.seats,
            workers: raw.workers,
        })
    }

    /// Returns the cluster's name.
    pub fn cluster(&self) -> Name
        ensures cluster { result ≡ self.now.cluster }
        ensures settings { are_settings self.now ≡ true }
    {
        self.cluster
    }

    /// Returns the greatest length of one frame in bytes, 1,024 to 65,536.
    pub fn budget(&self) -> u64
        ensures budget { result ≡ self.now.budget }
        ensures settings { are_settings self.now ≡ true }
    {
        self.budget
    }

    /// Returns the order in which a delta lists what is available.
    pub fn order(&self) -> Order
        ensures order { result ≡ self.now.order }
        ensures settings { are_settings self.now ≡ true }
    {
        self.order
    }

    /// Returns the greatest version that the owner's log may assign, 1 to 2^40 - 1.
    pub fn max_version(&self) -> u64
        ensures version { result ≡ self.now.max_version }
        ensures settings { are_settings self.now ≡ true }
    {
        self.max_version
    }

    /// Returns how many readers a directory has, 1 to 64.
    pub fn seats(&self) -> u64
        ensures seats { result ≡ self.now.seats }
        ensures settings { are_settings self.now ≡ true }
    {
        self.seats
    }

    /// Returns how many connections a node serves at once, 1 to 62.
    pub fn workers(&self) -> u64
        ensures workers { result ≡ self.now.workers }
        ensures settings { are_settings self.now ≡ true }
    {
        self.workers
    }
}
