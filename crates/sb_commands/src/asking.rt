//! Requests to a running node, over its control socket.
ghost use Rattle.std.specs.Prelude.{◌≡◌, ◌<◌};

use crate::ages::{fresh_page, print_aged};
use crate::failure::{Failure, FaultPlace, Obstacle};
use crate::output::Output;
use sb_codec::{Ages, Ask, AskChange, Message, Rows};
use sb_control::ask_control;
use sb_frames::{Connection, Steps};
use sb_listing::print_json_rows;
use sb_query::{
    NoAnswer, Pager, PagingFault, ages_in, ask_all, goes_on, notice_in, page_in, print_rows,
    version_in,
};
use sb_types::{Fault, KIND_ROWS, Key, Slot, Write};
use std::alloc::Global;
use std::io::{self, Read};
use std::marker::Brand;
use std::os::unix::net::UnixStream;
use std::sync::ledger::{Blank, Ledger};
use std::time::Duration;

/// How many reads one answer, or one session, can take.
pub(crate) const READS_OF_ONE: u64 = 65_536;

/// After how many seconds without a byte a request is given up.
pub(crate) const LONGEST_SILENCE: u64 = 60;

/// Makes a read or a write of a connection fail if no byte moves for a minute. An error if the system does not set that.
pub(crate) fn limit(stream: &UnixStream) -> io::Result<()> {
    let longest = Some(Duration::from_secs(LONGEST_SILENCE));
    stream.set_read_timeout(longest)?;
    stream.set_write_timeout(longest)
}

/// Whether a connection is open and nothing comes, after a read of it has failed. Otherwise the node ended it.
pub(crate) fn is_silent(stream: &UnixStream) -> bool {
    let mut byte = [0u8; 1];
    let mut reader = stream;
    if stream
        .set_read_timeout(Some(Duration::from_millis(1)))
        .is_err()
    {
        return false;
    }
    match reader.read(&mut byte) {
        Ok(count) => count > 0,
        Err(error) => matches!(
            error.kind(),
            io::ErrorKind::WouldBlock | io::ErrorKind::TimedOut
        ),
    }
}

/// Sends one request over a connection, and returns its answer. The faults of `ask_control`.
fn request_answer<K: Ledger>(
    alloc: Global,
    stream: &UnixStream,
    request: &Message,
    blank: Blank,
) -> Result<Message, Fault>
    requires name { blank.name ≡ K.name }
    requires parts { blank.parts ≡ K.parts }
    requires some { 0 < blank.parts }
{
    let steps = Steps::<K>::new(blank);
    let mut connection = Connection::new(alloc, stream, stream, READS_OF_ONE, steps);
    ask_control(&mut connection, request)
}

/// A connection to the node at a control socket. `ReadFailed` if the node cannot be reached. If so many others wait at the
/// socket that it takes no more, the call waits without limit.
fn connected<'a>(rt: &HostRuntime, control: &'a str) -> Result<UnixStream, Failure<'a>> {
    let stream = match UnixStream::connect(rt, control) {
        Ok(stream) => stream,
        Err(error) => {
            let place = FaultPlace::Unreached(control, Obstacle::of(&error));
            return Err(Failure::at(place, Fault::ReadFailed));
        }
    };
    if limit(&stream).is_err() {
        return Err(Failure::at(FaultPlace::Control(control), Fault::ReadFailed));
    }
    Ok(stream)
}

/// Returns the answer of the node at a control socket. The faults of `connected`; `ReadFailed` if the node is silent for a
/// minute; then the faults of `ask_control`.
pub(crate) fn answer_of<'a>(
    rt: &HostRuntime,
    control: &'a str,
    request: &Message,
) -> Result<Message, Failure<'a>> {
    let stream = connected(rt, control)?;
    answer_over(rt, control, &stream, request)
}

/// Returns the answer of the node at the other end of a connection. The faults of `answer_of`.
fn answer_over<'a>(
    rt: &HostRuntime,
    control: &'a str,
    stream: &UnixStream,
    request: &Message,
) -> Result<Message, Failure<'a>> {
    match request_answer::<Brand>(rt.alloc(), stream, request, Blank::new(1)) {
        Ok(answer) => Ok(answer),
        Err(Fault::ReadFailed) if is_silent(stream) => {
            Err(Failure::at(FaultPlace::Silent(control), Fault::ReadFailed))
        }
        Err(fault) => Err(Failure::at(FaultPlace::Control(control), fault)),
    }
}

/// The failure if an answer is not the one to the request: the fault by which the node refused, or `UnknownKind`.
pub(crate) fn unanswered<'a>(control: &'a str, reason: NoAnswer) -> Failure<'a> {
    match reason {
        NoAnswer::Refused(fault) => Failure::at(FaultPlace::Node(control), fault),
        NoAnswer::OtherKind(kind) => Failure::at(
            FaultPlace::Control(control),
            Fault::UnknownKind(kind),
        ),
    }
}

/// A connection over which the node reports the next change, which it notes from here on. Whatever comes over it next means
/// that something may have changed. The faults of `answer_of` and of `unanswered`.
pub(crate) fn noting_stream<'a>(
    rt: &HostRuntime,
    control: &'a str,
    asked: &AskChange,
) -> Result<UnixStream, Failure<'a>> {
    let stream = connected(rt, control)?;
    let answer = answer_over(rt, control, &stream, &Message::AskChange(*asked))?;
    match notice_in(&answer) {
        Ok(_) => Ok(stream),
        Err(reason) => Err(unanswered(control, reason)),
    }
}

/// How many milliseconds ago the node heard each owner. The faults of `answer_of` and of `unanswered`.
pub fn ages_of<'a>(rt: &HostRuntime, control: &'a str) -> Result<Ages, Failure<'a>> {
    let answer = answer_of(rt, control, &Message::AskAges)?;
    match ages_in(answer) {
        Ok(ages) => Ok(ages),
        Err(reason) => Err(unanswered(control, reason)),
    }
}

/// Makes a node write. Returns the version of the write. The faults of `answer_of`, after which the write may have been made;
/// those of `unanswered`.
pub fn put<'a>(
    rt: &HostRuntime,
    control: &'a str,
    key: Key,
    slot: Slot,
) -> Result<u64, Failure<'a>> {
    let request = Message::Put(Write { key, slot });
    let answer = answer_of(rt, control, &request)?;
    match version_in(&answer) {
        Ok(version) => Ok(version),
        Err(reason) => Err(unanswered(control, reason)),
    }
}

/// One page of a node's rows. The faults of `answer_of` and of `unanswered`.
pub(crate) fn page_of<'a>(
    rt: &HostRuntime,
    control: &'a str,
    ask: &Ask,
) -> Result<Rows, Failure<'a>> {
    let answer = answer_of(rt, control, &Message::Ask(*ask))?;
    match page_in(answer) {
        Ok(page) => Ok(page),
        Err(reason) => Err(unanswered(control, reason)),
    }
}

/// The first page of a node's rows. The faults of `page_of`; `Malformed(KIND_ROWS)` if a row of it is not after the asked place, or if
/// it has no row although more follow.
pub(crate) fn first_page_of<'a>(
    rt: &HostRuntime,
    control: &'a str,
    ask: &Ask,
) -> Result<Rows, Failure<'a>> {
    let page = page_of(rt, control, ask)?;
    if goes_on(&page, ask.after) {
        return Ok(page);
    }
    Err(Failure::at(FaultPlace::Control(control), Fault::Malformed(KIND_ROWS)))
}

/// The failure if not all pages of the node at a control socket came.
fn paging_failure<'a>(control: &'a str, fault: PagingFault<Failure<'a>>) -> Failure<'a> {
    match fault {
        PagingFault::Failed(failure) => failure,
        PagingFault::Wrong(fault) => Failure::at(FaultPlace::Control(control), fault),
    }
}

/// Makes a pager ask the node at a control socket for all rows that are asked for. The faults of `ask_all`.
pub(crate) fn take_all<'a, P: Pager<Failure = Failure<'a>>>(
    control: &'a str,
    pager: &mut P,
    asked: Ask,
) -> Result<(), Failure<'a>> {
    match ask_all(pager, asked) {
        Ok(()) => Ok(()),
        Err(fault) => Err(paging_failure(control, fault)),
    }
}

/// The form in which rows are printed.
#[derive(Clone, Copy)]
pub enum RowFormat {
    /// The words of a row.
    Text,
    /// A JSON object of a row.
    Json,
}

/// What is asked of the ages of owners.
#[derive(Clone, Copy)]
pub struct AgeQuery {
    /// Whether rows are printed with the ages of their owners.
    pub are_shown: bool,
    /// How many milliseconds ago an owner may have been heard at the most.
    pub most: Option<u64>,
}

/// Prints the rows of a page, as JSON with the ages of their owners, if these are given. `NoMemory`; `WriteFailed`, with the
/// number of bytes that the output took in all.
pub(crate) fn print_page(
    rt: &HostRuntime,
    output: &mut Output<'_>,
    page: &Rows,
    format: RowFormat,
    ages: Option<&Ages>,
) -> Result<(), Fault> {
    let (printed, _) = match (format, ages) {
        (RowFormat::Text, _) => print_rows(rt.alloc(), output, page),
        (RowFormat::Json, Some(ages)) => return print_aged(rt.alloc(), output, page, ages),
        (RowFormat::Json, None) => print_json_rows(rt.alloc(), output, page),
    };
    match printed {
        Err(Fault::WriteFailed(_)) => Err(Fault::WriteFailed(output.taken())),
        printed => printed,
    }
}

/// Asks a node for pages, and prints each page as it comes. So any number of rows takes the memory of one page.
#[derive(Drop)]
struct Printer<'r, 'a> {
    rt: &'r HostRuntime,
    control: &'a str,
    format: RowFormat,
    /// Of the owners, as of before the first page, if it needs them.
    ages: Option<Ages>,
    query: AgeQuery,
    output: Output<'r>,
}

impl<'a> Pager for Printer<'_, 'a> {
    ghost step = { λ _ _ _. Unit {0} };

    type Failure = Failure<'a>;

    fn ask(&mut self, ask: &Ask) -> Result<Rows, Failure<'a>> {
        page_of(self.rt, self.control, ask)
    }

    fn take(&mut self, page: &Rows) -> Result<(), Failure<'a>> {
        let ages = self.ages.as_ref();
        let shown = if self.query.are_shown { ages } else { None };
        match (ages, self.query.most) {
            (Some(heard), Some(most)) => {
                let fresh = fresh_page(self.rt.alloc(), page, heard, most)?;
                print_page(self.rt, &mut self.output, &fresh, self.format, shown)?;
            }
            _ => print_page(self.rt, &mut self.output, page, self.format, shown)?,
        }
        Ok(())
    }
}

/// Prints the asked rows of a node, page after page, from the first on, without those of owners that are older than asked.
/// The faults of `ages_of`, if ages are needed; then, at any page, those of `ask_all` and of `page_of`, `NoMemory` and `WriteFailed`.
/// The rows that it printed before stay printed.
pub fn print_all<'a>(
    rt: &HostRuntime,
    control: &'a str,
    asked: Ask,
    format: RowFormat,
    query: AgeQuery,
) -> Result<(), Failure<'a>> {
    let ages = if query.are_shown || query.most.is_some() {
        Some(ages_of(rt, control)?)
    } else {
        None
    };
    let output = Output::new(rt);
    let mut printer = Printer {
        rt,
        control,
        format,
        ages,
        query,
        output,
    };
    take_all(control, &mut printer, asked)
}
