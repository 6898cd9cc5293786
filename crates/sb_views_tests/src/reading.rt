//! A reader of a node whose views were just made, and what it must find.
ghost use Rattle.std.specs.Prelude.{◌≡◌};

use crate::examples::{key_is_looked_up, rows_are_counted, rows_are_printed};
use crate::floors::beyond_is_shown;
use crate::pages::{pages_follow, rows_are_answered};
use crate::views::live_is_shown;
use crate::{got, there};
use sb_holdings::Holdings;
use sb_views::{Entered, NewHistory, NodeTag, Reader, views};
use std::alloc::Global;
use std::marker::Brand;
use std::process::Abort;
use std::sync::Wait;

/// What a reader looks at.
#[derive(Clone, Copy)]
pub(crate) enum Look {
    /// What is under keys, and rows in order.
    Live,
    /// How far owners are held without an entry of that version.
    Beyond,
    /// Pages at exact budgets and after places.
    Pages,
    /// Pages that follow one another.
    Following,
    /// What is under one key.
    Key,
    /// How many rows there are under a prefix.
    Count,
    /// The rows under a prefix, as they are printed.
    Print,
}

/// Makes the views of what is held, and makes a reader look at them.
pub(crate) fn read<R: Wait + Abort>(rt: &R, alloc: Global, holdings: &Holdings, look: Look) {
    read_on::<Brand, _>(rt, alloc, NewHistory::new(), holdings, look);
}

fn read_on<S: NodeTag, R: Wait + Abort>(
    rt: &R,
    alloc: Global,
    new_history: NewHistory,
    holdings: &Holdings,
    look: Look,
)
    requires history { new_history.seen.book ≡ S.history }
    requires opening { S.opening.held ≡ holdings.now }
{
    let start = new_history.named::<S>().prefix().copy();
    let (_writer, mut readers) = got(rt, views::<S, &R>(alloc, rt, start, holdings, 1));
    look_at(rt, alloc, &entered(rt, there(rt, readers.pop())), look);
}

/// A reader that entered.
pub(crate) fn entered<S: NodeTag>(rt: &impl Abort, reader: Reader<S>) -> Entered<S> {
    there(rt, reader.enter().ok())
}

fn look_at<S: NodeTag>(rt: &impl Abort, alloc: Global, entered: &Entered<S>, look: Look) {
    let snapshot = entered.snapshot();
    match look {
        Look::Live => live_is_shown(rt, &snapshot),
        Look::Beyond => beyond_is_shown(rt, &snapshot),
        Look::Pages => rows_are_answered(rt, alloc, &snapshot),
        Look::Following => pages_follow(rt, alloc, &snapshot),
        Look::Key => key_is_looked_up(rt, entered),
        Look::Count => rows_are_counted(rt, &snapshot),
        Look::Print => rows_are_printed(rt, alloc, &snapshot),
    }
}
