//! How a text is printed.
ghost use Rattle.std.specs.Prelude.{◌≡◌, ◌<◌, ◌≤◌};
ghost use Rattle.std.specs.Char.{digit_char};
ghost use Rattle.sb_types.specs.Spelling.{is_escaped, printed_char, printed_text};

use std::fmt;

/// A text, printed in the spelling that it has on a line. Each of the bytes 00 to 1f, 7f and the backslash becomes a
/// backslash and two digits of 0-9 and a-f.
#[derive(Drop)]
pub struct Spelled<'a>(pub &'a str);

#[derive(Drop)]
struct SpelledChar(char);

fn hex_digit(number: u8) -> u8
    requires { number < 16 }
    ensures { result ≡ digit_char number }
{
    if number < 10 {
        b'0' + number
    } else {
        b'a' + (number - 10)
    }
}

impl fmt::Display for SpelledChar {
    ghost use Rattle.std.specs.Prelude.{Some};

    ghost output = { λ c. Some (printed_char c.0) };

    fn fmt<W: fmt::Write>(&self, f: &mut fmt::Formatter<W>) -> fmt::Result {
        let code = self.0 as u32;
        if code < 32 || code == 127 || code == 92 {
            let byte = code as u8;
            let spelled = [b'\\', hex_digit(byte / 16), hex_digit(byte % 16)];
            return f.write_str(str::from_utf8(&spelled).map_err(|_| fmt::Error)?);
        }
        f.write_char(self.0)
    }
}

impl fmt::Display for Spelled<'_> {
    ghost use Rattle.std.specs.Prelude.{Some};

    ghost output = { λ s. Some (printed_text s.0.now) };

    fn fmt<W: fmt::Write>(&self, f: &mut fmt::Formatter<W>) -> fmt::Result {
        let text = self.0;
        for c in text.chars() {
            f.write(SpelledChar(c))?;
        }
        Ok(())
    }
}
