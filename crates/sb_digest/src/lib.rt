//! Digests: messages in which a node reports to a peer how far it holds each owner's writes.
//!
//! A digest has a pair for each owner in a range of names. The pair contains the owner, its held version, and the purge
//! floor and the progress of its stage, if it has one. `build` makes the digest of holdings within a budget. The next
//! digest begins where this one ends. A peer answers a digest with a delta, which `sb_budget` makes.
//!
//! ```rust
//! /// The version up to which a node that made one write tells that it holds its own writes.
//! fn own_version_in_digest(alloc: Global, me: Name) -> Result<u64, Fault> {
//!     let mut table = Table::new(alloc);
//!     let key = Key::read(b"web/up")?;
//!     table.push(Entry::new(key, 1, Slot::Set(Value::flag(true))))?;
//!     let holdings = Holdings::new(alloc, me, table)?;
//!     let digest = build(alloc, &holdings, None, true, BUDGET_LEAST)?;
//!     Ok(digest.start(&me, 0, 1).after)
//! }
//! ```
//!
//! # What no contract refuses
//!
//! - `build` reports `NoMemory` without need. Tests run it with ample memory, and once at full size. They compare exact
//!   answers.
//! - `start_from` searches although the owner's pair is at the place, or the pairs take more room than they need.
//!   Nothing refuses it: no contract mentions time. `attrdir_bench` measures.
//! - `Debug` prints another text. Nothing refuses it.
#![tactic(auto)]

mod digest;
mod digest_builder;
mod digest_building;
mod laws;

pub use digest::{Digest, Pair, Start};
pub use digest_building::build;
pub use laws::{digests_are_true, digests_have_few_pairs, one_front_is_longest, starts_are_within};
