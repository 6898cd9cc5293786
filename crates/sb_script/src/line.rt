//! The lines of a script below the first. Only their shape is checked here: names, keys and values are still words.
use crate::words::{ValueWords, WriteWords, are_words, connection_of, number_of};

/// A line below the world line, with its words. Connections have the numbers 1 to 999,999.
#[derive(Clone, Copy)]
pub(crate) enum Line<'a> {
    /// `commit N K KIND VALUE`, `commit N K removed`: the log of node N takes a write. A text is the rest of the line.
    Commit {
        write: WriteWords<'a>,
    },
    /// `put N K KIND VALUE`, `del N K`: the log of node N takes a write, and the oldest write that waits is entered.
    Write {
        write: WriteWords<'a>,
    },
    /// `crash N K KIND VALUE kept`, `.. lost`: node N crashes in that commit. A text ends before the last space.
    Crash {
        write: WriteWords<'a>,
        is_kept: bool,
    },
    /// `take N`: the oldest write of node N that waits is entered.
    Take {
        node: &'a [u8],
    },
    /// `purge N F`: the log of node N drops its tombstones up to the version F, and the node goes down.
    Purge {
        node: &'a [u8],
        floor: u64,
    },
    /// `trim N F`: node N purges its own table up to the version F, and then its log drops its tombstones up to there.
    Trim {
        node: &'a [u8],
        floor: u64,
    },
    /// `restart N`: node N opens again.
    Restart {
        node: &'a [u8],
    },
    /// `connect N C`: a connection of this number begins at node N.
    Connect {
        node: &'a [u8],
        connection: u64,
    },
    /// `close C`: the connection is closed.
    Close {
        connection: u64,
    },
    /// `line C I`: frame I enters the connection's queue.
    LineUp {
        connection: u64,
        frame: u64,
    },
    /// `piece C n`: the next n bytes come.
    Piece {
        connection: u64,
        count: u64,
    },
    /// `ask C`: the session sends its next digest.
    Ask {
        connection: u64,
    },
    /// `offer N O V`: node N sends what it holds of owner O above the version V.
    Offer {
        node: &'a [u8],
        owner: &'a [u8],
        after: u64,
    },
    /// `read N O K`: node N reads what owner O has under the key K.
    Read {
        node: &'a [u8],
        owner: &'a [u8],
        key: &'a [u8],
    },
    /// `upto N O`: node N reports how far it holds owner O.
    Upto {
        node: &'a [u8],
        owner: &'a [u8],
    },
    /// `show I`: the frame of this number is printed.
    Show {
        frame: u64,
    },
    /// `give A B V`: node A sends to node B what it wrote above the version V, on connections of their own.
    Give {
        giver: &'a [u8],
        taker: &'a [u8],
        after: u64,
    },
}

/// A line that makes a node write.
fn parse_write<'a>(words: &[&'a [u8]]) -> Option<Line<'a>> {
    let (node, key, value) = match *words {
        [b"del", node, key] | [b"commit", node, key, b"removed"] => (node, key, None),
        [b"put" | b"commit", node, key, kind, content]
        | [b"crash", node, key, kind, content, b"kept" | b"lost"] => {
            (node, key, Some(ValueWords { kind, content }))
        }
        _ => return None,
    };
    let write = WriteWords { node, key, value };
    match *words {
        [b"commit", ..] => Some(Line::Commit { write }),
        [b"crash", .., end] => Some(Line::Crash {
            write,
            is_kept: end == b"kept".as_slice(),
        }),
        _ => Some(Line::Write { write }),
    }
}

/// A line of a connection.
fn parse_connection<'a>(words: &[&'a [u8]]) -> Option<Line<'a>> {
    match *words {
        [b"connect", node, connection] => Some(Line::Connect {
            node,
            connection: connection_of(connection)?,
        }),
        [b"close", connection] => Some(Line::Close {
            connection: connection_of(connection)?,
        }),
        [b"line", connection, frame] => Some(Line::LineUp {
            connection: connection_of(connection)?,
            frame: number_of(frame)?,
        }),
        [b"piece", connection, count] => Some(Line::Piece {
            connection: connection_of(connection)?,
            count: number_of(count)?,
        }),
        [b"ask", connection] => Some(Line::Ask {
            connection: connection_of(connection)?,
        }),
        _ => None,
    }
}

/// Another line of a node, or of two.
fn parse_node<'a>(words: &[&'a [u8]]) -> Option<Line<'a>> {
    match *words {
        [b"take", node] => Some(Line::Take { node }),
        [b"purge", node, floor] => Some(Line::Purge {
            node,
            floor: number_of(floor)?,
        }),
        [b"trim", node, floor] => Some(Line::Trim {
            node,
            floor: number_of(floor)?,
        }),
        [b"restart", node] => Some(Line::Restart { node }),
        [b"offer", node, owner, after] => Some(Line::Offer {
            node,
            owner,
            after: number_of(after)?,
        }),
        [b"read", node, owner, key] => Some(Line::Read { node, owner, key }),
        [b"upto", node, owner] => Some(Line::Upto { node, owner }),
        [b"show", frame] => Some(Line::Show {
            frame: number_of(frame)?,
        }),
        [b"give", giver, taker, after] => Some(Line::Give {
            giver,
            taker,
            after: number_of(after)?,
        }),
        _ => None,
    }
}

impl<'a> Line<'a> {
    /// Reads the line of these words. Returns `None` if they are not a command.
    pub(crate) fn parse(words: &[&'a [u8]]) -> Option<Line<'a>> {
        if !are_words(words) {
            return None;
        }
        if let Some(line) = parse_write(words) {
            return Some(line);
        }
        match parse_connection(words) {
            Some(line) => Some(line),
            None => parse_node(words),
        }
    }
}
