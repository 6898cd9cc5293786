//! How answers are printed as lines.
ghost use Rattle.std.specs.Prelude.{◌≡◌, ◌<◌};
ghost use Rattle.std.specs.Char.{digit_char};
ghost use Rattle.std.specs.Fmt.{WritesOnOk};
ghost use Rattle.sb_script.specs.Printed as spec;

use sb_holdings::BlockEnd;
use sb_types::{Fault, Key, Name, Value};
use sb_world::{Answer, Event, Item};
use std::fmt;

/// The line of a fault.
#[derive(Clone, Copy)]
pub(crate) struct FaultLine(pub(crate) Fault);

/// The line of a frame, in hexadecimal.
#[derive(Clone, Copy)]
pub(crate) struct FrameLine<'a>(pub(crate) &'a [u8]);

/// The lines of what an event answers.
#[derive(Clone, Copy)]
pub(crate) struct AnswerLines<'a> {
    pub(crate) event: &'a Event,
    pub(crate) answer: &'a Result<Answer, Fault>,
}

/// The line of what came of a message that a piece brought.
#[derive(Clone, Copy)]
struct ItemLine(Item);

/// The lines of what a piece brought.
#[derive(Clone, Copy)]
struct PieceLines<'a> {
    items: &'a [Item],
    fault: Option<Fault>,
}

/// The line of a value that was read.
#[derive(Clone, Copy)]
struct ValueLine<'a> {
    owner: &'a Name,
    key: &'a Key,
    version: u64,
    value: &'a Value,
}

/// The two digits of a byte.
#[derive(Clone, Copy)]
struct Hex(u8);

/// A text of ASCII.
#[derive(Clone, Copy)]
pub(crate) struct Text<'a>(pub(crate) &'a [u8]);

impl fmt::Display for Text<'_> {
    ghost use Rattle.std.specs.Prelude.{Some};

    ghost output = { λ t. Some t.0.now };

    fn fmt<W: fmt::Write>(&self, f: &mut fmt::Formatter<W>) -> fmt::Result {
        f.write_str(str::from_utf8(self.0).map_err(|_| fmt::Error)?)
    }
}

fn hex_digit(number: u8) -> u8
    requires { number < 16 }
    ensures { result ≡ digit_char number }
{
    if number < 10 {
        b'0' + number
    } else {
        b'a' + (number - 10)
    }
}

impl fmt::Display for Hex {
    ghost use Rattle.std.specs.Prelude.{Some};

    ghost output = { λ h. Some (spec.hex h.0) };

    fn fmt<W: fmt::Write>(&self, f: &mut fmt::Formatter<W>) -> fmt::Result {
        let digits = [hex_digit(self.0 / 16), hex_digit(self.0 % 16)];
        f.write_str(str::from_utf8(&digits).map_err(|_| fmt::Error)?)
    }
}

impl fmt::Display for FaultLine {
    ghost use Rattle.std.specs.Prelude.{Some};

    ghost output = { λ l. Some (spec.fault_line l.0) };

    fn fmt<W: fmt::Write>(&self, f: &mut fmt::Formatter<W>) -> fmt::Result {
        writeln!(f, "fault {}", self.0.number())
    }
}

impl fmt::Display for FrameLine<'_> {
    ghost use Rattle.std.specs.Prelude.{Some};

    ghost output = { λ l. Some (spec.frame_line l.0.now) };

    fn fmt<W: fmt::Write>(&self, f: &mut fmt::Formatter<W>) -> fmt::Result {
        let frame = self.0;
        for byte in frame {
            f.write(Hex(*byte))?;
        }
        f.write_str("\n")
    }
}

impl fmt::Display for ItemLine {
    ghost use Rattle.std.specs.Prelude.{Some};

    ghost output = { λ l. Some (spec.item_line l.0) };

    fn fmt<W: fmt::Write>(&self, f: &mut fmt::Formatter<W>) -> fmt::Result {
        match self.0 {
            Item::Ended(BlockEnd::Own) => writeln!(f, "own"),
            Item::Ended(BlockEnd::OwnAhead(version)) => writeln!(f, "own-ahead {version}"),
            Item::Ended(BlockEnd::Gap) => writeln!(f, "gap"),
            Item::Ended(BlockEnd::Stale) => writeln!(f, "stale"),
            Item::Ended(BlockEnd::OwnersFull) => writeln!(f, "owners-full"),
            Item::Ended(BlockEnd::Taken(count)) => writeln!(f, "taken {count}"),
            Item::Ended(BlockEnd::TooManyKeys(count)) => writeln!(f, "too-many-keys {count}"),
            Item::Ended(BlockEnd::NoMemory(count)) => writeln!(f, "no-memory {count}"),
            Item::Replied(number) => writeln!(f, "frame {number}"),
        }
    }
}

impl fmt::Display for PieceLines<'_> {
    ghost use Rattle.std.specs.Prelude.{Some};

    ghost output = { λ l. Some (spec.piece_lines l.items.now l.fault) };

    fn fmt<W: fmt::Write>(&self, f: &mut fmt::Formatter<W>) -> fmt::Result {
        let items = self.items;
        for item in items {
            f.write(ItemLine(*item))?;
        }
        match self.fault {
            Some(fault) => f.write(FaultLine(fault)),
            None if items.is_empty() => f.write_str("nothing\n"),
            None => Ok(()),
        }
    }
}

impl fmt::Display for ValueLine<'_> {
    ghost use Rattle.std.specs.Prelude.{Some};

    ghost output = { λ l. Some (spec.value_line l.owner.now l.key.now l.version l.value.now) };

    fn fmt<W: fmt::Write>(&self, f: &mut fmt::Formatter<W>) -> fmt::Result {
        let owner = Text(self.owner.bytes());
        let key = Text(self.key.bytes());
        writeln!(f, "{owner} {key} {} {}", self.version, self.value)
    }
}

/// Writes the line of a value that was read. No other event shows a value.
fn write_shown<W: fmt::Write>(
    f: &mut fmt::Formatter<W>,
    event: &Event,
    value: &Value,
    version: u64,
) -> fmt::Result
    ensures { WritesOnOk W.write_str_gives f.old result (spec.shown_line event.now value.now version) f.new }
{
    match event {
        Event::Read(_, owner, key) => f.write(ValueLine {
            owner,
            key,
            version,
            value,
        }),
        _ => Ok(()),
    }
}

impl fmt::Display for AnswerLines<'_> {
    ghost use Rattle.std.specs.Prelude.{Some};

    ghost output = { λ l. Some (spec.lines_of l.event.now l.answer.now) };

    fn fmt<W: fmt::Write>(&self, f: &mut fmt::Formatter<W>) -> fmt::Result {
        let answer = match self.answer {
            Ok(answer) => answer,
            Err(fault) => return f.write(FaultLine(*fault)),
        };
        match answer {
            Answer::Nothing => writeln!(f, "nothing"),
            Answer::Committed(version) => writeln!(f, "committed {version}"),
            Answer::Took(version) => writeln!(f, "took {version}"),
            Answer::Crashed => writeln!(f, "crashed"),
            Answer::Purged(floor) => writeln!(f, "purged {floor}"),
            Answer::Trimmed(floor) => writeln!(f, "trimmed {floor}"),
            Answer::Restarted(version) => writeln!(f, "restarted {version}"),
            Answer::Sent(number) => writeln!(f, "frame {number}"),
            Answer::Shut => writeln!(f, "closed"),
            Answer::Lined => writeln!(f, "lined"),
            Answer::Delivered(items, fault) => f.write(PieceLines {
                items: items.items(),
                fault: *fault,
            }),
            Answer::Shown(Some((value, version))) => write_shown(f, self.event, value, *version),
            Answer::Shown(None) => writeln!(f, "none"),
            Answer::Number(version) => writeln!(f, "{version}"),
        }
    }
}
