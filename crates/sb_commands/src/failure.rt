//! What ended a command: the fault, and the place at which it was met.
use crate::advice::{about_cause, advice};
use crate::asking::LONGEST_SILENCE;
use crate::part::Range;
use crate::quote::{Quote, QuotedWord};
use sb_log::StoreCause;
use sb_types::Fault;
use std::alloc::AllocError;
use std::{fmt, io};

/// Why a connection to a socket was not made.
#[derive(Clone, Copy)]
pub enum Obstacle {
    /// There is no file at the path.
    NoFile,
    /// Nobody listens at the path.
    Refused,
    /// The program is not permitted to open the socket.
    Forbidden,
    /// The path cannot be that of a socket.
    BadPath,
    /// Something else.
    Other,
}

impl Obstacle {
    /// What an error of connecting means.
    pub fn of(error: &io::Error) -> Obstacle {
        match error.kind() {
            io::ErrorKind::NotFound | io::ErrorKind::NotADirectory => Obstacle::NoFile,
            io::ErrorKind::ConnectionRefused => Obstacle::Refused,
            io::ErrorKind::PermissionDenied => Obstacle::Forbidden,
            io::ErrorKind::InvalidInput | io::ErrorKind::InvalidFilename => Obstacle::BadPath,
            _ => Obstacle::Other,
        }
    }

    /// The text of fault 16 with this obstacle.
    fn text(self) -> &'static str {
        match self {
            Obstacle::NoFile => "no node could be reached: no such file",
            Obstacle::Refused => "no node could be reached: refused, no node listens there",
            Obstacle::Forbidden => "no node could be reached: not permitted",
            Obstacle::BadPath => "no node could be reached: this cannot be the path of a socket",
            Obstacle::Other => "no node could be reached",
        }
    }
}

/// What keeps a file from being opened as a log.
#[derive(Clone, Copy)]
pub enum LogObstacle {
    /// Its path is that of a folder, a socket or a device.
    NoFile,
    /// The file has another name too.
    SecondName,
    /// The program is not permitted to write to the file.
    ReadOnly,
    /// The file of its name with `-journal` has something.
    Journal,
    /// The file, or the one of its name with `-wal`, is not there and could not be made.
    Unmade,
}

impl LogObstacle {
    /// The text of fault 18 with this obstacle.
    fn text(self) -> &'static str {
        match self {
            LogObstacle::NoFile => "the path of the log is not that of a file",
            LogObstacle::SecondName => "the file of the log has a second name",
            LogObstacle::ReadOnly => "the file of the log cannot be written: not permitted",
            LogObstacle::Journal => "beside the log is a journal of another program",
            LogObstacle::Unmade => "a file of the log cannot be made",
        }
    }
}

/// What a line of standard input has, as far as the advice about it needs that.
#[derive(Clone, Copy)]
pub enum InputLine {
    /// A carriage return at its end.
    Return,
    /// The words of a text, and no carriage return at its end.
    Text,
    /// The words of a weight, and no carriage return at its end.
    Weight,
    /// Something else.
    Other,
}

/// The place at which a fault was met.
#[derive(Clone, Copy)]
pub enum FaultPlace<'a> {
    /// On the command line, or at standard input or output.
    Line,
    /// In a line of standard input.
    Input(InputLine),
    /// In a word of the command line: the option or word that it is for, and the word.
    Word(&'a str, &'a str),
    /// In a name that a node is to forget, which is its own.
    OwnName(&'a str),
    /// In the kind and the word of a value.
    Value(&'a str, &'a str),
    /// In the number of an option: its name, and the numbers that it takes.
    Number(&'a str, Range),
    /// In the version that the node at a socket for peers heard of.
    Heard(&'a str),
    /// At the file of a log.
    Log(&'a str),
    /// At the file of a log, which does not exist.
    NoLog(&'a str),
    /// At the file of a log, whose folder does not exist.
    NoLogFolder(&'a str),
    /// At the file of a log, which cannot be opened.
    UnreadableLog(&'a str),
    /// At the file of a log, which cannot be opened because of this.
    UnopenedLog(&'a str, LogObstacle),
    /// At the file of a log, which another process has open.
    LockedLog(&'a str),
    /// At the file of a log, which is a link.
    LinkedLog(&'a str),
    /// At the file of a log in whose folder another process restores one.
    BusyFolder(&'a str),
    /// At the file of a log that does not exist, beside which there is the `-wal` of one.
    OldWal(&'a str),
    /// At the file of a log, which is empty, beside which there is the `-wal` of another one.
    EmptyLog(&'a str),
    /// At the file of a log, which is a link, beside which there is a `-wal` that no opening reads.
    UnreadWal(&'a str),
    /// At the file of a log that takes no more writes, and whose node has ended because of that.
    FailedLog(&'a str),
    /// At a control socket at which no node could be reached.
    Unreached(&'a str, Obstacle),
    /// At a control socket whose node moved no byte for too long.
    Silent(&'a str),
    /// On the way of a request to a control socket, or of its answer.
    Control(&'a str),
    /// In the node at a control socket, which answered with this fault.
    Node(&'a str),
    /// In the rows that the node at a control socket shows of a name.
    NoRows(&'a str),
    /// At a socket for peers at which no node could be reached.
    NoPeer(&'a str, Obstacle),
    /// At a socket for peers whose node moved no byte for too long.
    SilentPeer(&'a str),
    /// In a session with the node at a socket for peers.
    Session(&'a str),
    /// At the path of a socket that a node makes, because a file is there.
    Taken(&'a str),
    /// At the path of a socket that a node makes, because a program listens there.
    Listening(&'a str),
    /// At the path of a socket that a node makes, which is empty or too long for one.
    TooLong(&'a str),
    /// At the path of a socket that a node makes, whose folder does not exist.
    NoFolder(&'a str),
    /// At the path of a socket that a node makes, in whose folder it is not permitted to write.
    Forbidden(&'a str),
    /// At the path of a peer's socket, which is empty or too long for one.
    Peer(&'a str),
    /// At one of the two sockets that a node makes.
    Sockets(&'a str, &'a str),
    /// At a port that a node cannot listen at.
    Port(&'a str),
    /// At an address for HTTP that is not one of this machine, or has the port 0.
    OtherAddress(&'a str),
    /// In a template, or at its path.
    Template(&'a str),
    /// At the path of the file of a watch, because something is there that a watch does not replace.
    Rendered(&'a str),
    /// At the path for metrics, because something else is there.
    Metrics(&'a str),
    /// At the path for metrics, because it is also that of the node's log or of a socket.
    MetricsOver(&'a str),
    /// At the path for metrics, because it is empty.
    MetricsNowhere,
}

/// A fault that ended a command.
#[derive(Clone, Copy)]
pub struct Failure<'a> {
    fault: Fault,
    place: FaultPlace<'a>,
    /// Why the store of a log failed, if that is known.
    cause: Option<StoreCause>,
    /// The line of standard input or of a template, counted from 1. 0 if it was met at no line.
    line: u64,
    /// How the line begins, if it is quoted.
    quote: Option<Quote>,
}

impl<'a> Failure<'a> {
    pub fn at(place: FaultPlace<'a>, fault: Fault) -> Failure<'a> {
        Failure {
            fault,
            place,
            cause: None,
            line: 0,
            quote: None,
        }
    }

    /// `StoreFailed` of the log in a file, by this cause.
    pub fn of_store(path: &'a str, cause: StoreCause) -> Failure<'a> {
        Failure {
            fault: Fault::StoreFailed,
            place: FaultPlace::Log(path),
            cause: Some(cause),
            line: 0,
            quote: None,
        }
    }

    /// The same, met at the log at this path in place of another one.
    pub fn of_log<'b>(self, path: &'b str) -> Failure<'b> {
        let place = match self.place {
            FaultPlace::NoLogFolder(_) => FaultPlace::NoLogFolder(path),
            FaultPlace::LockedLog(_) => FaultPlace::LockedLog(path),
            FaultPlace::UnopenedLog(_, obstacle) => FaultPlace::UnopenedLog(path, obstacle),
            _ => FaultPlace::Log(path),
        };
        Failure {
            fault: self.fault,
            place,
            cause: self.cause,
            line: self.line,
            quote: self.quote,
        }
    }

    /// The same, met at a line of standard input or of a template.
    pub fn in_line(self, line: u64) -> Failure<'a> {
        Failure {
            fault: self.fault,
            place: self.place,
            cause: self.cause,
            line,
            quote: self.quote,
        }
    }

    /// The same, and it quotes the first 80 bytes of the line at which it was met.
    pub(crate) fn with_quote(self, line: &[u8]) -> Failure<'a> {
        Failure {
            fault: self.fault,
            place: self.place,
            cause: self.cause,
            line: self.line,
            quote: Some(Quote::of(line)),
        }
    }

    /// Whether it can pass while only the node changes: the node could not be reached, ended, was silent, or refused.
    pub fn may_pass(&self) -> bool {
        match (&self.fault, self.place) {
            (_, FaultPlace::Unreached(..) | FaultPlace::Silent(_) | FaultPlace::Node(_)) => true,
            (
                Fault::ReadFailed | Fault::WriteFailed(_) | Fault::Truncated,
                FaultPlace::Control(_),
            ) => true,
            _ => false,
        }
    }

    /// Whether nobody could be reached at the control socket.
    pub(crate) fn is_unreached(&self) -> bool {
        matches!(self.place, FaultPlace::Unreached(..))
    }
}

impl From<AllocError> for Failure<'_> {
    fn from(_: AllocError) -> Self {
        Failure::from(Fault::NoMemory)
    }
}

impl From<Fault> for Failure<'_> {
    fn from(fault: Fault) -> Self {
        Failure::at(FaultPlace::Line, fault)
    }
}

/// The text of `ReadFailed`, if the place has a closer one.
fn text_of_reading(place: FaultPlace<'_>) -> Option<&'static str> {
    Some(match place {
        FaultPlace::Control(_) | FaultPlace::Session(_) => "the node ended the connection",
        FaultPlace::Template(_) => "the template could not be read",
        FaultPlace::Peer(_) => "a peer can never be reached: this cannot be the path of a socket",
        FaultPlace::Taken(_) => {
            "a socket could not be made: a file that is not a socket is at its path"
        }
        FaultPlace::Listening(_) => {
            "a socket could not be made: a program listens at its path already"
        }
        FaultPlace::TooLong(_) => {
            "a socket could not be made: its path is empty, or has more than 107 bytes"
        }
        FaultPlace::NoFolder(_) => "a socket could not be made: its folder does not exist",
        FaultPlace::Forbidden(_) => "a socket could not be made: not permitted",
        FaultPlace::Sockets(..) => "a socket could not be made",
        FaultPlace::Port(_) => "the node cannot listen at this port",
        _ => return None,
    })
}

/// The text of `WriteFailed`, if the place has a closer one.
fn text_of_writing(place: FaultPlace<'_>) -> Option<&'static str> {
    Some(match place {
        FaultPlace::Metrics(_) => "the path is taken by a file that is not metrics",
        FaultPlace::MetricsOver(_) => "the path is that of the node's log or of a socket",
        FaultPlace::MetricsNowhere => "the path is empty",
        FaultPlace::Rendered(_) => {
            "the path is taken by the template, a log, a link, or what is no file"
        }
        _ => return None,
    })
}

/// The text of `StoreFailed` at a log that was not opened, if the place alone has a closer one.
fn text_of_log(place: FaultPlace<'_>) -> Option<&'static str> {
    Some(match place {
        FaultPlace::NoLog(_) => "there is no such log",
        FaultPlace::NoLogFolder(_) => "there is no such log: its folder does not exist",
        FaultPlace::UnreadableLog(_) => "the log cannot be opened",
        FaultPlace::LockedLog(_) => "another process has the log open",
        FaultPlace::LinkedLog(_) => "the path of the log is a link",
        FaultPlace::BusyFolder(_) => "another process restores a log in its folder",
        FaultPlace::OldWal(_) => "there is no such log, but a file of its name with -wal",
        FaultPlace::EmptyLog(_) => {
            "the file of the log is empty, but a file of its name with -wal has writes"
        }
        FaultPlace::UnreadWal(_) => {
            "the path of the log is a link, but a file of its name with -wal has writes"
        }
        FaultPlace::FailedLog(_) => "the node has ended, since its log takes no more writes",
        _ => return None,
    })
}

/// The text of `StoreFailed`, if the place has a closer one.
fn text_of_store(place: FaultPlace<'_>) -> Option<&'static str> {
    match place {
        FaultPlace::UnopenedLog(_, obstacle) => Some(obstacle.text()),
        _ => text_of_log(place),
    }
}

/// The text of a fault that its place makes closer than the fault alone.
fn closer_text(fault: &Fault, place: FaultPlace<'_>) -> Option<&'static str> {
    match (fault, place) {
        (Fault::ReadFailed, _) => text_of_reading(place),
        (Fault::WriteFailed(_), _) => text_of_writing(place),
        (Fault::StoreFailed, _) => text_of_store(place),
        (Fault::BadSetting | Fault::BadKey, FaultPlace::Template(_)) => Some(
            "the template has something else than a placeholder after {{",
        ),
        (Fault::LogDamaged, _) => Some(
            "the file is not a log that this release reads, or it is damaged",
        ),
        (Fault::NothingThere, FaultPlace::Session(_)) => Some(
            "the node has heard nothing of this name",
        ),
        (Fault::NothingThere, FaultPlace::NoRows(_)) => Some("the node shows no row of this name"),
        _ => None,
    }
}

/// Writes the text of a fault, which depends on where it was met.
fn write_text<W: fmt::Write>(
    fault: &Fault,
    place: FaultPlace<'_>,
    f: &mut fmt::Formatter<W>,
) -> fmt::Result {
    match (fault, place) {
        (_, FaultPlace::Node(_)) => write_told(fault, f),
        (Fault::ReadFailed, FaultPlace::Unreached(_, obstacle) | FaultPlace::NoPeer(_, obstacle)) =>
            { f.write_str(obstacle.text()) }
        (Fault::ReadFailed, FaultPlace::Silent(_) | FaultPlace::SilentPeer(_)) => {
            write!(f, "the node was silent for {LONGEST_SILENCE} s")
        }
        (Fault::OutOfTurn(next), FaultPlace::Log(_)) => write!(
            f,
            "the log has writes, or was made by begin: its next write has version {next}"
        ),
        _ => match closer_text(fault, place) {
            Some(text) => f.write_str(text),
            None => write!(f, "{fault}"),
        },
    }
}

/// Writes the text of a fault that a node reported by its number, without what the number does not carry.
fn write_told<W: fmt::Write>(fault: &Fault, f: &mut fmt::Formatter<W>) -> fmt::Result {
    match fault {
        Fault::UnknownKind(_) => f.write_str("a message of this kind has no place here"),
        Fault::Malformed(_) => f.write_str("a message breaks the format"),
        Fault::WriteFailed(_) => f.write_str("writing failed"),
        Fault::OwnerConflict(_) => f.write_str(
            "another node writes under this node's name; give each node a name of its own",
        ),
        Fault::OutOfTurn(_) => f.write_str("the write is not the next one"),
        fault => write!(f, "{fault}"),
    }
}

/// What is at the path of a place, and that path; none if the place has no path, or two.
fn path_of<'a>(place: FaultPlace<'a>) -> Option<(&'static str, &'a str)> {
    Some(match place {
        FaultPlace::Log(path)
        | FaultPlace::NoLog(path)
        | FaultPlace::NoLogFolder(path)
        | FaultPlace::UnreadableLog(path)
        | FaultPlace::UnopenedLog(path, _)
        | FaultPlace::LockedLog(path)
        | FaultPlace::LinkedLog(path)
        | FaultPlace::BusyFolder(path)
        | FaultPlace::OldWal(path)
        | FaultPlace::EmptyLog(path)
        | FaultPlace::UnreadWal(path)
        | FaultPlace::FailedLog(path) => ("log", path),
        FaultPlace::Unreached(path, _)
        | FaultPlace::Silent(path)
        | FaultPlace::Control(path)
        | FaultPlace::NoRows(path)
        | FaultPlace::Node(path) => ("control socket", path),
        FaultPlace::NoPeer(path, _)
        | FaultPlace::SilentPeer(path)
        | FaultPlace::Heard(path)
        | FaultPlace::Session(path)
        | FaultPlace::Taken(path)
        | FaultPlace::Listening(path)
        | FaultPlace::TooLong(path)
        | FaultPlace::NoFolder(path)
        | FaultPlace::Forbidden(path) => ("socket", path),
        FaultPlace::Peer(path) => ("peer", path),
        FaultPlace::Port(address) | FaultPlace::OtherAddress(address) => ("http", address),
        FaultPlace::Metrics(path) | FaultPlace::MetricsOver(path) => ("metrics", path),
        FaultPlace::Template(path) => ("template", path),
        FaultPlace::Rendered(path) => ("file", path),
        _ => return None,
    })
}

impl fmt::Display for FaultPlace<'_> {
    fn fmt<W: fmt::Write>(&self, f: &mut fmt::Formatter<W>) -> fmt::Result {
        if let Some((what, path)) = path_of(*self) {
            return write!(f, "{what} {}: ", QuotedWord(path));
        }
        match self {
            FaultPlace::Word(what, word) => write!(f, "{what} '{}': ", QuotedWord(*word)),
            FaultPlace::OwnName(name) => write!(f, "--forget '{}': ", QuotedWord(*name)),
            FaultPlace::Value(kind, word) => {
                write!(f, "value '{} {}': ", QuotedWord(*kind), QuotedWord(*word))
            }
            FaultPlace::Number(name, _) => write!(f, "--{name}: "),
            FaultPlace::Sockets(sock, control) => write!(
                f,
                "sockets {} and {}: ",
                QuotedWord(*sock),
                QuotedWord(*control)
            ),
            FaultPlace::MetricsNowhere => f.write_str("metrics : "),
            _ => Ok(()),
        }
    }
}

/// Writes what to do about a fault, in one line.
fn write_advice<W: fmt::Write>(
    fault: &Fault,
    place: FaultPlace<'_>,
    f: &mut fmt::Formatter<W>,
) -> fmt::Result {
    match (fault, place) {
        (Fault::BadSetting, FaultPlace::Number(_, range)) => write!(f, "give {range}"),
        _ => f.write_str(advice(fault, place)),
    }
}

/// The text of what ended a command, in one line.
#[derive(Clone, Copy)]
pub(crate) struct FailureText<'f, 'a>(pub(crate) &'f Failure<'a>);

impl fmt::Display for FailureText<'_, '_> {
    fn fmt<W: fmt::Write>(&self, f: &mut fmt::Formatter<W>) -> fmt::Result {
        write_text(&self.0.fault, self.0.place, f)
    }
}

/// Three lines: the fault's number, its text, and what to do about it.
impl fmt::Display for Failure<'_> {
    fn fmt<W: fmt::Write>(&self, f: &mut fmt::Formatter<W>) -> fmt::Result {
        writeln!(f, "fault {}", self.fault.number())?;
        write_text(&self.fault, self.place, f)?;
        f.write_str("\n")?;
        if self.line > 0 {
            write!(f, "line {}: ", self.line)?;
        }
        if let Some(quote) = &self.quote {
            write!(f, "{quote}: ")?;
        }
        write!(f, "{}", self.place)?;
        match self.cause {
            Some(cause) => write!(f, "{cause}: {}", about_cause(cause)),
            None => write_advice(&self.fault, self.place, f),
        }
    }
}
