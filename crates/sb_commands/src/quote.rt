//! The beginning of a line, and a word, as a failure quotes them.
ghost use Rattle.std.specs.Prelude.{◌≡◌, ◌<◌, ◌≤◌, length, nat_lt, take};
ghost use Rattle.std.specs.Char.{digit_char};
ghost use Rattle.sb_commands.specs.Lines as spec;
ghost use Rattle.sb_commands.specs.declared.quote.TheConstants.{QUOTED_MOST};

use std::fmt;

/// How many bytes of a line are quoted at most.
const QUOTED_MOST: usize = 80;

/// The beginning of a line. It is printed between quotation marks, and two dots come after them if the line is longer.
#[derive(Clone, Copy)]
pub(crate) struct Quote {
    cells: [u8; QUOTED_MOST],
    /// How many of the cells are bytes of the line.
    len: usize,
    /// Whether the line is longer.
    is_cut: bool,
}

/// The first bytes of a text, so many at most.
fn first_bytes(text: &[u8], most: usize) -> &[u8]
    ensures first { result.now ≡ take most text.now }
    ensures most { length result.now ≤ most }
{
    match text.split_at_checked(most) {
        Some((first, _)) => first,
        None => text,
    }
}

impl Quote {
    /// Quotes the first 80 bytes of a line.
    pub(crate) fn of(line: &[u8]) -> Quote
        ensures beginning { take result.len result.cells ≡ take QUOTED_MOST line.now }
        ensures cut { result.is_cut ≡ nat_lt QUOTED_MOST (length line.now) }
    {
        let mut cells = [0; QUOTED_MOST];
        let beginning = first_bytes(line, QUOTED_MOST);
        let len = beginning.len();
        cells[..len].copy_from_slice(beginning);
        Quote {
            cells,
            len,
            is_cut: line.len() > QUOTED_MOST,
        }
    }
}

/// A byte as it is quoted. Each control byte, each byte above 126 and the backslash become a backslash and two digits of 0-9
/// and a-f.
#[derive(Clone, Copy)]
struct QuotedByte(u8);

/// Bytes as they are quoted.
#[derive(Clone, Copy)]
struct QuotedText<'a>(&'a [u8]);

fn hex_digit(number: u8) -> u8
    requires { number < 16 }
    ensures { result ≡ digit_char number }
{
    if number < 10 {
        b'0' + number
    } else {
        b'a' + (number - 10)
    }
}

impl fmt::Display for QuotedByte {
    ghost use Rattle.std.specs.Prelude.{Some};

    ghost output = { λ quoted. Some (spec.quoted_byte quoted.0) };

    fn fmt<W: fmt::Write>(&self, f: &mut fmt::Formatter<W>) -> fmt::Result {
        let byte = self.0;
        if byte < 32 || byte > 126 || byte == b'\\' {
            let spelled = [b'\\', hex_digit(byte / 16), hex_digit(byte % 16)];
            return f.write_str(str::from_utf8(&spelled).map_err(|_| fmt::Error)?);
        }
        let shown = [byte];
        f.write_str(str::from_utf8(&shown).map_err(|_| fmt::Error)?)
    }
}

/// A word of the command line, or a path. Each control byte is printed as a backslash and two digits of 0-9 and a-f.
#[derive(Clone, Copy)]
pub(crate) struct QuotedWord<'a>(pub(crate) &'a str);

impl fmt::Display for QuotedWord<'_> {
    fn fmt<W: fmt::Write>(&self, f: &mut fmt::Formatter<W>) -> fmt::Result {
        for sign in self.0.chars() {
            let code = sign as u32;
            if code < 32 || code == 127 {
                f.write(QuotedByte(code as u8))?;
            } else {
                f.write_char(sign)?;
            }
        }
        Ok(())
    }
}

impl fmt::Display for QuotedText<'_> {
    ghost use Rattle.std.specs.Prelude.{Some};

    ghost output = { λ quoted. Some (spec.quoted_text quoted.0.now) };

    fn fmt<W: fmt::Write>(&self, f: &mut fmt::Formatter<W>) -> fmt::Result {
        let text = self.0;
        for byte in text {
            f.write(QuotedByte(*byte))?;
        }
        Ok(())
    }
}

impl fmt::Display for Quote {
    ghost use Rattle.std.specs.Prelude.{Some};

    ghost output = { λ quote. Some (spec.quoted (take quote.len quote.cells) quote.is_cut) };

    fn fmt<W: fmt::Write>(&self, f: &mut fmt::Formatter<W>) -> fmt::Result {
        let text = QuotedText(first_bytes(&self.cells, self.len));
        if self.is_cut {
            write!(f, "'{text}'..")
        } else {
            write!(f, "'{text}'")
        }
    }
}
