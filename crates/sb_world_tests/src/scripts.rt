//! What no clause promises: what scripts print, and how runs end.
use crate::transcripts::{TRANSCRIPTS, lines_behind};
use crate::{got, holds, same};
use sb_script::{Detail, Ending, Output, sim_run_uncounted};
use sb_testing::streams::FailingWriter;
use sb_types::Fault;
use std::alloc::Global;
use std::io;
use std::io::{ErrorKind, Read, Write};
use std::process::Abort;

const EXAMPLE: &str = "world 1024 breadth 100 a b
put a w weight 5
give a b 0
read b a w
";

const PRINTED: &str = "version 1
a703000000320300010161000000000000000000000000000000000000000000000001000101770000000000000001020000000000000005
taken 1
a w 1 weight 5
";

/// A writer that takes no memory, and at most so many bytes.
#[derive(Drop)]
struct Page {
    bytes: [u8; 4096],
    used: usize,
}

impl Page {
    fn new() -> Page {
        Page {
            bytes: [0; 4096],
            used: 0,
        }
    }

    fn printed(&self) -> &[u8] {
        self.bytes.get(..self.used).unwrap_or(&[])
    }

    /// Whether no line reports missing memory, as an answer or in place of words.
    fn had_memory(&self) -> bool {
        for line in self.printed().split(is_newline) {
            if line.ends_with(b"fault 1") || line.starts_with(b"no-memory") {
                return false;
            }
        }
        true
    }

    /// Whether just this was printed. Missing memory ends the test.
    fn has_just(&self, rt: &impl Abort, wanted: &[u8]) -> bool {
        holds(rt, "error: NoMemory", self.had_memory());
        self.printed() == wanted
    }
}

fn is_newline(byte: &u8) -> bool {
    *byte == b'\n'
}

impl Write for Page {
    fn write(&mut self, bytes: &[u8]) -> io::Result<usize> {
        for byte in bytes {
            if self.used >= self.bytes.len() {
                return Err(io::Error::from(ErrorKind::WriteZero));
            }
            self.bytes[self.used] = *byte;
            self.used += 1;
        }
        Ok(bytes.len())
    }

    fn flush(&mut self) -> io::Result<()> {
        Ok(())
    }
}

/// How a run of the example ended. Missing memory ends the test, and without it there is always a world.
fn settled(rt: &impl Abort, ended: Result<Ending, Fault>) -> Result<Ending, Fault> {
    match ended {
        Err(Fault::NoMemory) | Ok(Ending::NoWorld) => got(rt, Err(Fault::NoMemory)),
        ended => ended,
    }
}

/// Runs a script to a writer.
fn run_to<R: Read + Drop, W: Write + Drop>(
    alloc: Global,
    reader: R,
    writer: W,
    max_reads: u64,
    detail: Detail,
) -> Result<Ending, Fault> {
    let mut output = Output::new(alloc, writer)?;
    sim_run_uncounted(alloc, reader, &mut output, max_reads, detail)
}

/// How a script ends with ample reads, and whether just this was printed.
fn ran(
    rt: &impl Abort,
    alloc: Global,
    script: &[u8],
    detail: Detail,
    printed: &[u8],
) -> (Ending, bool) {
    let mut page = Page::new();
    let ending = got(rt, run_to(alloc, script, &mut page, 100, detail));
    (ending, page.has_just(rt, printed))
}

/// A reader that comes to its end so many times, and then fails.
#[derive(Drop)]
struct BreakingReader<'a> {
    bytes: &'a [u8],
    ends: u64,
}

impl Read for BreakingReader<'_> {
    fn read(&mut self, buffer: &mut [u8]) -> io::Result<usize> {
        if !self.bytes.is_empty() {
            return self.bytes.read(buffer);
        }
        if self.ends == 0 {
            return Err(io::Error::from(ErrorKind::Other));
        }
        self.ends -= 1;
        Ok(0)
    }
}

/// The frame of a delta of one weight, and that of an empty delta.
const FRAME: &str =
    "a703000000320300010161000000000000000000000000000000000000000000000001000101770000000000000001020000000000000005";

const EMPTY_FRAME: &str = "a70300000003030000";

const P: &str = "pppppppppppppppppppppppppppppppppppppppppppppppppppppppppppppppp\
pppppppppppppppppppppppppppppppppppppppppppppppppppppppppppppppp";

const T: &str =
    "pppppppppppppppppppppppppppppppppppppppppppppppppppppppppppppppppppppppppppppppppppppppppppppppppppppppppppppppppppppppppppppppp\
pppppppppppppppppppppppppppppppppppppppppppppppppppppppppppppppppppppppppppppppppppppppppppppppppppppppppppppppppppppppppppppppp\
pppppppppppppppppppppppppppppppppppppppppppppppppppppppppppppppppppppppppppppppppppppppppppppppppppppppppppppppppppppppppppppppp\
pppppppppppppppppppppppppppppppppppppppppppppppppppppppppppppppppppppppppppppppppppppppppppppppppppppppppppppppppppppppppppppppp";

/// What a word of a transcript stands for.
fn meaning(word: &[u8]) -> &[u8] {
    match word {
        b"T" => T.as_bytes(),
        b"P" => P.as_bytes(),
        b"Q" => P.as_bytes().get(1..).unwrap_or(&[]),
        b"FRAME" => FRAME.as_bytes(),
        b"EMPTY" => EMPTY_FRAME.as_bytes(),
        word => word,
    }
}

fn is_space(byte: &u8) -> bool {
    *byte == b' '
}

fn add(rt: &impl Abort, out: &mut Vec<u8>, bytes: &[u8]) {
    got(rt, out.extend_from_slice(bytes));
}

/// Adds a line with what its words stand for.
fn add_line(rt: &impl Abort, out: &mut Vec<u8>, line: &[u8]) {
    let mut before: &[u8] = b"";
    for word in line.split(is_space) {
        add(rt, out, before);
        add(rt, out, meaning(word));
        before = b" ";
    }
    add(rt, out, b"\n");
}

/// Adds a line of a transcript, without its sign, if it belongs to the script, or to what the script prints.
fn add_line_if(rt: &impl Abort, out: &mut Vec<u8>, line: &[u8], is_printed: bool) {
    match line.strip_prefix(b"> ".as_slice()) {
        Some(printed) if is_printed => add_line(rt, out, printed),
        None if !is_printed && !line.is_empty() => add_line(rt, out, line),
        _ => {}
    }
}

/// The lines of a transcript's script, or those that it prints.
fn lines_of(rt: &impl Abort, alloc: Global, transcript: &str, are_printed: bool) -> Vec<u8> {
    let mut lines = Vec::new(alloc);
    for short in transcript.as_bytes().split(is_newline) {
        for line in lines_behind(short).split(is_newline) {
            add_line_if(rt, &mut lines, line, are_printed);
        }
    }
    lines
}

/// Whether the lines of a transcript print just what is below them.
fn prints(rt: &impl Abort, alloc: Global, detail: Detail, transcript: &str) -> bool {
    let script = lines_of(rt, alloc, transcript, false);
    let printed = lines_of(rt, alloc, transcript, true);
    ran(rt, alloc, &script, detail, &printed) == (Ending::Whole, true)
}

#[test]
fn lines_print_what_stands_below_them(rt: HostRuntime) {
    for (title, detail, lines) in TRANSCRIPTS.iter() {
        holds(&rt, title, prints(&rt, rt.alloc(), *detail, lines));
    }
}

/// Tests that the script ends with this status, and has printed just this.
fn ends_with(rt: &impl Abort, alloc: Global, script: &str, status: u8, printed: &str) {
    let bytes = script.as_bytes();
    let (ending, is_printed) = ran(rt, alloc, bytes, Detail::Plain, printed.as_bytes());
    let found = (script, ending.status(), is_printed);
    same(rt, &found, &(script, status, true));
}

#[test]
fn a_wrong_line_ends_the_run(rt: HostRuntime) {
    let alloc = rt.alloc();
    ends_with(&rt, alloc, "", 0, "");
    let script = "world 1024 breadth 100 a\n\nread a a\nput a w flag true\n";
    ends_with(&rt, alloc, script, 2, "line 3\n");
    ends_with(&rt, alloc, "world 1023 breadth 100 a", 3, "fault 5\n");
}

/// Tests that a world of one node and this line end with this status, and print just this.
fn line_ends_with(rt: &impl Abort, alloc: Global, line: &str, status: u8, printed: &str) {
    let script = got(rt, format!(in alloc; "world 1024 breadth 100 a\n{line}\n"));
    ends_with(rt, alloc, script.as_str(), status, printed);
}

/// After the kind comes one space, and then all is the text, with its spaces. In a crash it ends before the last word.
#[test]
fn lines_with_texts(rt: HostRuntime) {
    let alloc = rt.alloc();
    line_ends_with(&rt, alloc, "put a t text", 2, "line 2\n");
    line_ends_with(&rt, alloc, "put a t text ", 0, "fault 4\n");
    line_ends_with(&rt, alloc, "put a t text  x ", 0, "version 1\n");
    line_ends_with(&rt, alloc, "put a t  text x", 2, "line 2\n");
    line_ends_with(&rt, alloc, "put  a t text x", 2, "line 2\n");
    line_ends_with(&rt, alloc, "put a t text a\\5C", 0, "fault 4\n");
    line_ends_with(&rt, alloc, "put a t text a\\5", 0, "fault 4\n");
    line_ends_with(&rt, alloc, "put a t text a\r", 0, "fault 4\n");
    line_ends_with(&rt, alloc, "put a t removed x", 0, "fault 4\n");
    line_ends_with(&rt, alloc, "crash a t text kept", 2, "line 2\n");
    line_ends_with(&rt, alloc, "crash a t text x lost ", 2, "line 2\n");
    line_ends_with(&rt, alloc, "crash a t text lost lost", 0, "crashed\n");
}

/// A purge and a trim have a node and a floor, which is a number like others.
#[test]
fn lines_with_floors(rt: HostRuntime) {
    let alloc = rt.alloc();
    line_ends_with(&rt, alloc, "purge a", 2, "line 2\n");
    line_ends_with(&rt, alloc, "purge a 0 0", 2, "line 2\n");
    line_ends_with(&rt, alloc, "purge a -1", 2, "line 2\n");
    line_ends_with(&rt, alloc, "purge a 000", 0, "purged 0\n");
    line_ends_with(&rt, alloc, "purge a 1", 0, "fault 30\n");
    line_ends_with(&rt, alloc, "purge A 0", 0, "fault 2\n");
    line_ends_with(&rt, alloc, "purge a 18446744073709551615", 0, "fault 30\n");
    line_ends_with(&rt, alloc, "purge a 18446744073709551616", 2, "line 2\n");
    line_ends_with(&rt, alloc, "trim a", 2, "line 2\n");
    line_ends_with(&rt, alloc, "trim a 0 0", 2, "line 2\n");
    line_ends_with(&rt, alloc, "trim a 000", 0, "trimmed 0\n");
    line_ends_with(&rt, alloc, "trim a 1", 0, "fault 30\n");
    line_ends_with(&rt, alloc, "trim A 0", 0, "fault 2\n");
    line_ends_with(&rt, alloc, "trim a 18446744073709551616", 2, "line 2\n");
}

/// Tests how the example ends with so many reads.
fn ends_within(rt: &impl Abort, alloc: Global, max_reads: u64, wanted: Result<Ending, Fault>) {
    let script = EXAMPLE.as_bytes();
    let ended = run_to(alloc, script, io::sink(), max_reads, Detail::Plain);
    same(rt, &(max_reads, settled(rt, ended)), &(max_reads, wanted));
}

#[test]
fn reads_are_counted(rt: HostRuntime) {
    ends_within(&rt, rt.alloc(), 0, Err(Fault::TurnsSpent));
    ends_within(&rt, rt.alloc(), 1, Err(Fault::TurnsSpent));
    ends_within(&rt, rt.alloc(), 2, Ok(Ending::Whole));
}

/// Tests how a script ends whose reader comes to its end so many times before it fails, and that it has printed just
/// this.
fn ends_at_breaks(
    rt: &impl Abort,
    alloc: Global,
    (script, ends): (&str, u64),
    wanted: Result<Ending, Fault>,
    printed: &str,
) {
    let mut page = Page::new();
    let bytes = script.as_bytes();
    let reader = BreakingReader { bytes, ends };
    let ended = run_to(alloc, reader, &mut page, 100, Detail::Plain);
    let is_printed = page.has_just(rt, printed.as_bytes());
    let found = (script, ends, settled(rt, ended), is_printed);
    same(rt, &found, &(script, ends, wanted, true));
}

#[test]
fn a_failed_read_is_no_end_and_the_end_is_read_once(rt: HostRuntime) {
    let alloc = rt.alloc();
    ends_at_breaks(&rt, alloc, ("", 0), Err(Fault::ReadFailed), "");
    ends_at_breaks(&rt, alloc, (EXAMPLE, 0), Err(Fault::ReadFailed), PRINTED);
    ends_at_breaks(&rt, alloc, (EXAMPLE, 1), Ok(Ending::Whole), PRINTED);
}

/// Tests how the example ends with such a writer, and that so many writes failed.
fn ends_at_writer(
    rt: &impl Abort,
    alloc: Global,
    (left, is_flushed): (usize, bool),
    wanted: Result<Ending, Fault>,
    failed: u32,
) {
    let mut writer = FailingWriter::new(left);
    writer.is_flushed = is_flushed;
    let ended = run_to(alloc, EXAMPLE.as_bytes(), &mut writer, 100, Detail::Plain);
    let found = (left, settled(rt, ended), writer.failed);
    same(rt, &found, &(left, wanted, failed));
}

#[test]
fn a_failed_write_says_how_much_was_written(rt: HostRuntime) {
    let alloc = rt.alloc();
    ends_at_writer(&rt, alloc, (17, true), Err(Fault::WriteFailed(17)), 1);
    ends_at_writer(&rt, alloc, (500, false), Err(Fault::WriteFailed(146)), 0);
    ends_at_writer(&rt, alloc, (146, true), Ok(Ending::Whole), 0);
}

fn are_lines(printed: &[u8], lines: &[&str]) -> bool {
    let mut rest = printed;
    for line in lines {
        match rest.strip_prefix(line.as_bytes()) {
            Some([b'\n', after @ ..]) => rest = after,
            _ => return false,
        }
    }
    rest.is_empty()
}

/// What a whole run of the example prints, depending on where memory is missing.
const WHOLE: [&[&str]; 6] = [
    &["version 1", FRAME, "taken 1", "a w 1 weight 5"],
    &["fault 1", EMPTY_FRAME, "nothing", "none"],
    &["version 1", "fault 1", "none"],
    &["version 1", FRAME, "fault 1", "none"],
    &["version 1", FRAME, "no-memory 0", "none"],
    &["version 1", FRAME, "taken 1", "fault 1"],
];

/// What a run prints before missing memory ends it.
const UNTOLD: [&[&str]; 3] = [&[], &["version 1"], &["version 1", FRAME, "taken 1"]];

/// Whether these are the lines of one of these runs.
fn are_lines_of_one(printed: &[u8], all: &[&[&str]]) -> bool {
    for lines in all {
        if are_lines(printed, lines) {
            return true;
        }
    }
    false
}

/// Whether a run of the example can end in this way if any memory can be refused.
fn may_end(ended: Result<Ending, Fault>, printed: &[u8]) -> bool {
    match ended {
        Ok(Ending::Whole) => are_lines_of_one(printed, &WHOLE),
        Ok(Ending::NoWorld) => are_lines(printed, &["fault 1"]),
        Err(Fault::NoMemory) => are_lines_of_one(printed, &UNTOLD),
        _ => false,
    }
}

#[test]
fn any_memory_may_be_refused(rt: HostRuntime) {
    let mut page = Page::new();
    let script = EXAMPLE.as_bytes();
    let ended = run_to(rt.alloc(), script, &mut page, 100, Detail::Plain);
    let is_allowed = may_end(ended, page.printed());
    same(&rt, &(ended, is_allowed), &(ended, true));
}
