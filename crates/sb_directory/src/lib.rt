//! The directory: one node that threads share, each from a seat of its own.
//!
//! From its seat a thread reads a snapshot of the node without the lock. It also makes its calls from there, and each call takes the
//! one lock. Each write of the node's own is an event of its history, and so is each delta that it takes. So is each purge of its
//! own table. Watches get a note of what an event entered, and readers get its view. A purge enters nothing, and readers see no difference.
//!
//! ```rust
//! /// Takes a write from a seat, and gives how far the seat then sees the node's own writes, without the lock.
//! fn write_and_look<S: DirectoryTag, R: Wait + Drop, Q: Wait>(
//!     rt: &Q,
//!     directory: &Directory<S, R>,
//!     mut seat: ReaderSeat<S>,
//!     committed: &Committed,
//! ) -> Result<(ReaderSeat<S>, u64), Fault> {
//!     directory.take_own(rt, &mut seat, committed)?;
//!     match seat.enter() {
//!         Ok(entered) => {
//!             let upto = entered.snapshot().upto(directory.name());
//!             Ok((entered.leave(), upto))
//!         }
//!         Err(seat) => Ok((seat, 0)),
//!     }
//! }
//!
//! /// The same from the one seat of a new directory, which is closed then; and how many events it had.
//! fn look_and_close<S: DirectoryTag, R: Wait>(
//!     rt: &R,
//!     alloc: Global,
//!     history: NewHistory,
//!     blank: Blank,
//!     core: NodeCore,
//!     committed: &Committed,
//! ) -> Result<(u64, u64), Fault>
//!     requires history { history.seen.book ≡ S.history }
//!     requires opening { S.opening ≡ core.node }
//!     requires settings { S.settings ≡ core.settings }
//!     requires name { blank.name ≡ S.name }
//!     requires parts { blank.parts ≡ S.parts }
//!     requires all { (1 ≡ S.seats) × (1 ≡ S.parts) }
//! {
//!     let (directory, mut seats) = Directory::<S, &R>::make(rt, alloc, history, blank, core, 1)?;
//!     let seat = seats.pop().ok_or(Fault::BadSetting)?;
//!     let (seat, upto) = write_and_look(rt, &directory, seat, committed)?;
//!     seats.push(seat)?;
//!     match directory.close(rt, seats) {
//!         Ok(closing) => Ok((upto, closing.events)),
//!         Err((fault, _, _)) => Err(fault),
//!     }
//! }
//! ```
//!
//! # What no contract refuses
//!
//! No fact spans the lock of a directory, so public clauses cannot name what is under it. The private clauses of
//! `ViewedNode` can.
//!
//! - A call from a seat answers for a past moment, with a digest kept from then, for instance. The clauses only
//!   require a moment no older than the seat's last call. Private clauses of `ViewedNode` and tests refuse it.
//! - A directory adds events to its history that no call made. Only `close` counts events, and a node that runs
//!   forever never calls it. Clauses of `ViewedNode` and tests refuse it.
//! - A refused `Directory::close` adds a watch of its own. Nothing refuses it.
//! - `Directory::watch` gives a watch that reports from another moment on. Or it drops the watch again by a second call, so
//!   `has_note` and `poll` return `NoWatch`. Private clauses refuse it within one call, and tests in
//!   `crates/sb_directory_tests` refuse the rest.
//! - `Directory::unwatch` drops nothing and returns `Ok`. Tests refuse it.
//! - `Directory::poll` gives another note than the oldest, or drops its watch. Tests refuse it. Private clauses cover one
//!   call under the lock, not a second that nobody asked for.
//! - `Directory::has_note` and `has_notes` answer anything: the clause of the first holds for some history, which may be any.
//!   Private clauses and tests refuse it.
//! - `Directory::take_news` leaves out an owner whose held version rose, has a wrong version, or returns the same news
//!   again. Or it has one whose version did not rise, as after a purge. A delta for any backlog is honest. Private clauses
//!   refuse all but two things within one call: `ViewedNode::take_own` adds nothing, as if memory were missing, or
//!   `ViewedNode::apply` adds anything. Tests in `crates/sb_directory_tests` refuse these.
//! - Views find no memory, or `enter` is refused, so `shown` is never true. Tests refuse it.
//! - A call that only asks leaves what is not published as it is. Then `enter` is refused until another call publishes. Tests refuse it.
//! - `refresh` returns true before all that others' calls made is published. No clause can state it across the
//!   lock.
//! - Two threads do not take turns. No clause can state it.
//! - `Directory::audit` answers for a past moment, as above, or marks the name twice. Private clauses and tests refuse it.
//! - `Directory::audit` reports `TurnsSpent` for a block without a difference, once no event or no version is left. Nothing
//!   refuses it.
//! - A call that takes the lock never returns. The clauses hold if it returns, and tests end.
#![tactic(auto)]

mod difference;
mod directory;
mod directory_watch;
mod lacked;
mod lacking_owners;
mod laws;
mod notes;
mod receipt;
mod risen;
mod seat;
mod seat_handler;
mod shares;
mod tag;
mod viewed_node;

pub use difference::{Difference, ForeignEntry};
pub use directory::Directory;
pub use directory_watch::DirectoryWatch;
pub use laws::held_never_falls;
pub use receipt::{Applied, Closing, Purge, Receipt};
pub use seat::{EnteredSeat, ReaderSeat};
pub use seat_handler::SeatHandler;
pub use tag::DirectoryTag;
