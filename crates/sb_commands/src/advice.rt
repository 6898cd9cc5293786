//! What to do about a fault, in one line that comes after its place.
use crate::failure::{FaultPlace, InputLine, LogObstacle, Obstacle};
use sb_log::StoreCause;
use sb_types::Fault;

/// What to do if a path cannot be that of a socket.
const SHORTER_PATH: &str =
    "the path of a socket has 1 to 107 bytes: give another one, for example relative to the folder in which you start the node";

/// What to do if a folder does not exist.
const MAKE_FOLDER: &str = "make the folder of this path, or give another path";

/// What a write may have done if its answer did not come.
const ASK_AGAIN: &str =
    "see whether the node runs; if this was a write, it may have been made, or may still be: look with get once the node answers";

/// What to do if no node could be reached at a control socket.
fn about_control(obstacle: Obstacle) -> &'static str {
    match obstacle {
        Obstacle::NoFile => {
            "start the node, or correct the path: it is the --control of a node that runs"
        }
        Obstacle::Refused => {
            "the node has ended, or this file is not a socket: start the node, or correct the path"
        }
        Obstacle::Forbidden => {
            "you need write permission on the socket, and x on each folder above it: run as the user of the node"
        }
        Obstacle::BadPath => "the path of a socket has 1 to 107 bytes: correct it",
        Obstacle::Other => {
            "see that a node runs with this --control, and that this process may open more files (ulimit -n)"
        }
    }
}

/// What to do if no node could be reached at a socket for peers.
fn about_peer(obstacle: Obstacle) -> &'static str {
    match obstacle {
        Obstacle::NoFile => {
            "start the node, or correct the path: it is the --sock of a node that runs"
        }
        Obstacle::Other => {
            "see that a node runs with this --sock, and that this process may open more files (ulimit -n)"
        }
        obstacle => about_control(obstacle),
    }
}

/// What to do if a socket could not be made, an answer did not come, or input could not be read.
fn about_reading(place: FaultPlace<'_>) -> &'static str {
    match place {
        FaultPlace::Silent(_) | FaultPlace::Control(_) | FaultPlace::Node(_) => ASK_AGAIN,
        FaultPlace::Taken(_) => "give another path, or remove the file",
        FaultPlace::Listening(_) => "end the program that listens there, or give another path",
        FaultPlace::TooLong(_) | FaultPlace::Peer(_) => SHORTER_PATH,
        FaultPlace::Template(_) => "give the path of a file of UTF-8 that you may read",
        FaultPlace::NoFolder(_) => MAKE_FOLDER,
        FaultPlace::Forbidden(_) => {
            "the node needs write permission on the folder of this path, and x on each folder above it: correct that, or give another path"
        }
        FaultPlace::Port(_) => {
            "end the program that listens there, or give another port; one below 1024 is for root alone"
        }
        FaultPlace::Sockets(..) => {
            "see that these are two different paths, that the disk has room, and that the process may open more files (ulimit -n)"
        }
        _ => "see where standard input comes from",
    }
}

/// What to do about a log whose file was lost while its node ran.
pub const ABOUT_LOSS: &str = "put the file back, or see RUNBOOK, A removed log";

/// What to do about the cause by which the store of a log failed.
pub fn about_cause(cause: StoreCause) -> &'static str {
    match cause {
        StoreCause::NoSpace => "make room on its disk",
        StoreCause::CannotOpen => about_store(FaultPlace::Line),
        StoreCause::Locked => "end the process that has it open",
        StoreCause::Io => {
            "see that its disk works, that files on it may be written, and that they may grow"
        }
        StoreCause::Damaged => {
            "see what else wrote to the file; keep it, and see RUNBOOK, A damaged log"
        }
        StoreCause::NoMemory => "end other programs, or give the process more memory",
        StoreCause::Other => {
            "see that the file is the log of this node, and that nothing else writes to it"
        }
    }
}

/// What to do about a `-wal` with writes that no opening would read.
fn about_wal(place: FaultPlace<'_>) -> &'static str {
    match place {
        FaultPlace::OldWal(_) => {
            "it has writes of that log: see that the path is right, and move the log back; if it is lost, see RUNBOOK, A removed log; if nobody wants these writes, \
move the file with -wal away, and give the command again"
        }
        FaultPlace::UnreadWal(_) => {
            "nothing would read them, since the -wal of this log is beside the file to which the link leads: see RUNBOOK, A removed log; if nobody wants these writes, \
move the file with -wal away, and give the command again"
        }
        _ => {
            "these are writes of the log that was here before: move that file back; if it is lost, see RUNBOOK, A removed log; if nobody wants these writes, \
move the file with -wal away, and give the command again"
        }
    }
}

/// What to do about what keeps a file from being opened as a log.
fn about_log_obstacle(obstacle: LogObstacle) -> &'static str {
    match obstacle {
        LogObstacle::NoFile => "give the path of a file: this is a folder, a socket or a device",
        LogObstacle::SecondName => {
            "remove its other name, a hard link: ls -i prints the same number for both names"
        }
        LogObstacle::ReadOnly => {
            "run as the user that made the file, or give yourself write permission on it; its disk must not be read-only"
        }
        LogObstacle::Journal => {
            "open the file once by sqlite3, which plays back the file of its name with -journal, and give the command again"
        }
        LogObstacle::Unmade => {
            "see that you may write in its folder, where a file of its name with -wal is made; that the disk has room; and that the process may open more files (ulimit -n)"
        }
    }
}

fn about_store(place: FaultPlace<'_>) -> &'static str {
    match place {
        FaultPlace::NoLog(_) => {
            "if the name is new, make an empty file with touch; if it has written before, see RUNBOOK, A lost log or disk: an empty log would lose its rows"
        }
        FaultPlace::NoLogFolder(_) => {
            "see that the path is right and that its disk is mounted; if the name is new, make the folder, or give another path"
        }
        FaultPlace::UnreadableLog(_) => {
            "see that you may read and write the file, as the user that made it may, and that the process may open more files (ulimit -n)"
        }
        FaultPlace::UnopenedLog(_, obstacle) => about_log_obstacle(obstacle),
        FaultPlace::LockedLog(_) => {
            "end that process, which may be a node; to read the rows of a node that runs, use get at its control socket"
        }
        FaultPlace::LinkedLog(_) => "give the path of the file itself",
        FaultPlace::BusyFolder(_) => "wait until that process ends, and give the command again",
        FaultPlace::OldWal(_) | FaultPlace::EmptyLog(_) | FaultPlace::UnreadWal(_) => {
            about_wal(place)
        }
        FaultPlace::FailedLog(_) => {
            "the line of this log before says why; before you start the node again, see RUNBOOK, A full disk, or A removed log"
        }
        FaultPlace::Node(_) => {
            "the node could not write its log, and takes no more writes: its line on standard error says why; before you start it again, \
see RUNBOOK, A full disk, or A removed log"
        }
        _ => {
            "see that the disk has room; that you may read and write the file, and write in its folder, where a file of its name with -wal is made; \
that the file has one name, and no -journal file beside it; and that the process may open more files (ulimit -n)"
        }
    }
}

fn about_turns(place: FaultPlace<'_>) -> &'static str {
    match place {
        FaultPlace::Control(_) => {
            "the answer takes more than 65,536 reads, so something else than a node answers: correct the path"
        }
        FaultPlace::Node(_) => "start the node again",
        _ => "a script may take 1,000,000 reads: play it in parts",
    }
}

fn about_writing(place: FaultPlace<'_>) -> &'static str {
    match place {
        FaultPlace::Control(_) =>
            "the node ended the connection: see whether it runs, and try again",
        FaultPlace::Metrics(_) | FaultPlace::MetricsOver(_) | FaultPlace::MetricsNowhere => {
            "give another path, of a file for metrics alone"
        }
        FaultPlace::Rendered(_) => "give a path that nothing else uses, also with .new after it",
        _ => {
            "see where standard output goes; what was printed before is valid, and a write that was asked for was made"
        }
    }
}

/// What to do about a fault of a request, its answer or what they carry.
fn about_exchange(fault: &Fault, place: FaultPlace<'_>) -> &'static str {
    match fault {
        Fault::BadMark
        | Fault::BadVersion
        | Fault::BadLength
        | Fault::UnknownKind(_)
        | Fault::Malformed(_) => {
            "give the --control of a node of the same release; its --sock, for other nodes, is another socket"
        }
        Fault::Closed => {
            "the log of the node met a fault before, and the node takes no more writes: its line on standard error says why; before you start it again, \
see RUNBOOK, A full disk, or A removed log"
        }
        Fault::WriteFailed(_) => about_writing(place),
        Fault::Truncated => ASK_AGAIN,
        Fault::TurnsSpent => about_turns(place),
        _ => about_reading(place),
    }
}

/// What a weight is.
const WEIGHTS: &str =
    "a weight is a whole number from 0 to 2^63 - 1, in digits alone and without a leading 0";

/// What to do about a line of standard input that has no value after its key.
fn about_input(line: InputLine) -> &'static str {
    match line {
        InputLine::Return => {
            "the line ends with a carriage return, \\0d: end each line with a newline alone"
        }
        InputLine::Text => {
            "a text has 1 to 512 bytes of UTF-8; write a backslash as \\5c, a newline as \\0a and a tab as \\09"
        }
        InputLine::Weight => WEIGHTS,
        InputLine::Other => {
            "give a kind and a word, for example addr 10.0.0.1:80, weight 5, flag true or text zone b"
        }
    }
}

fn about_value(place: FaultPlace<'_>) -> &'static str {
    match place {
        FaultPlace::Value("text", _) => {
            "a text has 1 to 512 bytes; write a backslash as \\5c, a newline as \\0a and a tab as \\09, or give --raw"
        }
        FaultPlace::Value("weight", _) => WEIGHTS,
        FaultPlace::Value("addr", _) => "an addr has 1 to 128 printing bytes, and no space",
        FaultPlace::Value("flag", _) => "a flag is true or false",
        FaultPlace::Value(..) => "the kind is addr, weight, flag or text",
        FaultPlace::Input(line) => about_input(line),
        _ =>
            "give a kind and a word, for example addr 10.0.0.1:80, weight 5, flag true or text 'zone b'",
    }
}

/// What to do about a setting that is outside its limits.
fn about_setting(place: FaultPlace<'_>) -> &'static str {
    match place {
        FaultPlace::Heard(_) => {
            "the version that this node heard of, plus 1,048,576, is above 1099511627775: begin with --after, at least 4,096 above the last version; \
if there is no room for that, end the name by --after 1099511627775, and take a new name"
        }
        FaultPlace::OwnName(_) => {
            "this is the node's own name: to end a name, see RUNBOOK, A retired machine"
        }
        FaultPlace::OtherAddress(_) => {
            "give 127.0.0.1:PORT or [::1]:PORT, with a port from 1 to 65535, or the path of a socket: over HTTP a node answers only programs of its machine"
        }
        _ => "give 1 to 32 lower-case letters, digits and -",
    }
}

/// What to do about a fault of a log or of names, or of an exchange.
fn about_log(fault: &Fault, place: FaultPlace<'_>) -> &'static str {
    match fault {
        Fault::OutOfTurn(_) if matches!(place, FaultPlace::Log(_)) => {
            "start the node with this log, which goes on by itself; if that ends in fault 21, move the file and its -wal away, and give the command again"
        }
        Fault::WrongCluster if matches!(place, FaultPlace::Control(_)) => {
            "give the --control of a node of the cluster that --cluster names"
        }
        Fault::FloorTooHigh => {
            "give a FLOOR of at most the last version, which `attrdir log` prints last, or --all"
        }
        Fault::StoreFailed => about_store(place),
        Fault::LogDamaged => {
            "correct the path; a log of a later release needs that release; if the log is damaged, keep it and see RUNBOOK, A damaged log: \
a copy helps only if the node has written nothing since"
        }
        Fault::WrongOwner => {
            "give the log of this node, or correct --name or --cluster; to see whose log it is, see RUNBOOK, A log of another name"
        }
        Fault::OwnerConflict(_) => {
            "end the other node of this name; if there is none, the log is an older copy, or began too low: see RUNBOOK, An older copy of a log"
        }
        Fault::NoHello
        | Fault::WrongCluster
        | Fault::SameName
        | Fault::SecondHello
        | Fault::NoWatch
        | Fault::WatchesFull
        | Fault::OutOfTurn(_) => {
            "give each node a name and a log of its own, and all nodes one cluster, and start the node again"
        }
        fault => about_exchange(fault, place),
    }
}

/// What a template can have.
const PLACEHOLDERS: &str =
    "write {{owner}}, {{KEY}}, {{KEY:host}}, {{KEY:port}}, each but the first also with |WORD before }}, or {{KEY=WORD}}";

/// What to do about a fault that is not one of a session as a peer.
fn about_fault(fault: &Fault, place: FaultPlace<'_>) -> &'static str {
    match fault {
        Fault::BadKey | Fault::BadSetting if matches!(place, FaultPlace::Template(_)) => {
            PLACEHOLDERS
        }
        Fault::NoMemory => {
            "end other programs, or give the machine or the process more memory or threads, and try again"
        }
        Fault::BadName => "give 1 to 32 lower-case letters, digits and -",
        Fault::BadKey => "give at most 64 lower-case letters, digits and the signs . _ / -",
        Fault::BadValue => about_value(place),
        Fault::BadSetting => about_setting(place),
        Fault::TableFull => {
            "a running node purges 64 removed keys or more: if it has fewer, stop it, give `attrdir purge --all`, and start it again; if it has none, run one more node; or write under a key that it has"
        }
        Fault::OwnersFull => "start the node again, so that it forgets owners that are gone",
        Fault::VersionsSpent => {
            "start the node again with a greater --max-version, of at most 1099511627775, or under a new name"
        }
        Fault::NothingThere if matches!(place, FaultPlace::NoRows(_)) => {
            "give the sockets of a node that shows its rows; if none does, make a log without rows by `attrdir begin --from`"
        }
        Fault::NothingThere => {
            "this node has written no value under this key: get --owner with its name prints the keys that it has; a key of another owner is removed at that node"
        }
        fault => about_log(fault, place),
    }
}

/// What to do about a fault of a session as a peer, which writes nothing at the node.
fn about_session(fault: &Fault) -> &'static str {
    match fault {
        Fault::NoMemory => about_fault(fault, FaultPlace::Line),
        Fault::WrongCluster => "give --cluster as the node has it",
        Fault::SameName => {
            "the node has this name: for `owners` give another --name; for `restore` give the --sock of another node after --from; \
for `begin` end that node, and ask another one"
        }
        Fault::NothingThere => {
            "a node that was started since has forgotten it: give the --sock of a node that runs for longer, or begin with --after; a name that never \
wrote needs only an empty file"
        }
        Fault::ReadFailed | Fault::WriteFailed(_) | Fault::Truncated => {
            "see whether the node runs, and try again"
        }
        _ => {
            "give the --sock of a node of the same release; its --control, for set, del, get, watch and status, is another socket"
        }
    }
}

/// What to do about a fault, in one line.
pub(crate) fn advice(fault: &Fault, place: FaultPlace<'_>) -> &'static str {
    match place {
        FaultPlace::Unreached(_, obstacle) => about_control(obstacle),
        FaultPlace::NoPeer(_, obstacle) => about_peer(obstacle),
        FaultPlace::Session(_) | FaultPlace::SilentPeer(_) => about_session(fault),
        _ => about_fault(fault, place),
    }
}
