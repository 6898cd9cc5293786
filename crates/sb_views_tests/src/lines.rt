//! What no clause promises: the lines of a log, and a write that fails.
use crate::got;
use crate::making::{Words, failed_behind, has_lines, key, name, settled, value_of};
use sb_lines::log_run;
use sb_log::{PlainLog, WriteLog};
use sb_testing::streams::FailingWriter;
use sb_types::Slot;
use std::alloc::Global;
use std::process::Abort;

// A key and its value, or `None` if it is removed.
type Write = (&'static [u8], Option<Words>);

fn three() -> [Write; 3] {
    [
        (b"x", Some((b"weight", b"5"))),
        (b"x", None),
        (b"y", Some((b"flag", b"true"))),
    ]
}

/// An address, a flag and a weight. The last write is that of x again.
fn five() -> [Write; 5] {
    [
        (b"x", Some((b"weight", b"5"))),
        (b"y/b", Some((b"addr", b"10.0.0.1:80"))),
        (b"y/a", Some((b"flag", b"true"))),
        (b"w", Some((b"weight", b"0"))),
        (b"x", None),
    ]
}

fn slot_of(rt: &impl Abort, alloc: Global, words: Option<Words>) -> Slot {
    match words {
        Some(words) => Slot::Set(value_of(rt, alloc, words)),
        None => Slot::Removed,
    }
}

fn put(rt: &impl Abort, alloc: Global, log: &mut PlainLog, write: Write) {
    let slot = slot_of(rt, alloc, write.1);
    let _committed = got(rt, log.put(&key(rt, write.0), &slot));
}

/// A log of a with these writes.
fn log_of(rt: &impl Abort, alloc: Global, writes: &[Write]) -> PlainLog {
    let mut log = PlainLog::new(alloc, name(rt, b"a"), name(rt, b"c"), 100);
    for write in writes {
        put(rt, alloc, &mut log, *write);
    }
    log
}

/// Tests that a log of these writes is printed as these lines, and that no write of them is reported as failed.
fn is_printed(rt: &impl Abort, alloc: Global, writes: &[Write], wanted: &[u8]) {
    let mut log = log_of(rt, alloc, writes);
    let mut lines = Vec::new(alloc);
    let printed = log_run(alloc, &mut log, &mut lines);
    has_lines(rt, printed, &lines, wanted);
}

#[test]
fn a_log_is_printed_in_ascending_key(rt: HostRuntime) {
    let alloc = rt.alloc();
    is_printed(&rt, alloc, &[], b"last 0\n");
    is_printed(
        &rt,
        alloc,
        &three(),
        b"a x 2 removed -\na y 3 flag true\nlast 3\n",
    );
    is_printed(
        &rt,
        alloc,
        &five(),
        b"a w 4 weight 0\na x 5 removed -\na y/a 3 flag true\na y/b 2 addr 10.0.0.1:80\nlast 5\n",
    );
}

/// A text is printed as it is spelled, with its spaces.
#[test]
fn a_text_is_printed_as_it_is_spelled(rt: HostRuntime) {
    let writes: [Write; 1] = [(b"t", Some((b"text", b" two\\0awords ")))];
    let wanted = b"a t 1 text  two\\0awords \nlast 1\n";
    is_printed(&rt, rt.alloc(), &writes, wanted);
}

/// Tests that printing the log of five fails at a writer that closes after so many bytes.
fn fails_behind(rt: &impl Abort, alloc: Global, left: usize) {
    let mut log = log_of(rt, alloc, &five());
    let printed = log_run(alloc, &mut log, &mut FailingWriter::new(left));
    failed_behind(rt, settled(rt, printed), left);
}

#[test]
fn a_failed_write_is_counted(rt: HostRuntime) {
    fails_behind(&rt, rt.alloc(), 0);
    fails_behind(&rt, rt.alloc(), 17);
    fails_behind(&rt, rt.alloc(), 79);
}
