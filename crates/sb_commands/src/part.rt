//! An option or a word of the command line: how it is given, which values it takes, and how its value is read.
use crate::failure::FaultPlace;
use clap::ArgMatches;
use std::alloc::{AllocError, Global};
use std::fmt;

/// Which numbers an option takes.
#[derive(Clone, Copy)]
pub enum Range {
    /// Any number.
    Any,
    /// From the first to the second.
    Within(u64, u64),
    /// From two more than the workers to this.
    Seats(u64),
    /// From 1 to this, with `--http`.
    WithHttp(u64),
}

impl Range {
    /// Whether it contains a number, whatever the workers are.
    fn contains(self, number: u64) -> bool {
        match self {
            Range::Any => true,
            Range::Within(least, most) => least <= number && number <= most,
            Range::Seats(most) | Range::WithHttp(most) => number <= most,
        }
    }
}

impl fmt::Display for Range {
    fn fmt<W: fmt::Write>(&self, f: &mut fmt::Formatter<W>) -> fmt::Result {
        match self {
            Range::Any => f.write_str("any number"),
            Range::Within(least, most) => write!(f, "{least} to {most}"),
            Range::Seats(most) => write!(f, "workers and 2 (3 with --http) to {most}"),
            Range::WithHttp(most) => write!(f, "1 to {most} with --http"),
        }
    }
}

/// How an option or a word is given.
#[derive(Clone, Copy)]
pub enum Kind {
    /// A word that must be given.
    Word,
    /// Any number of words.
    Words,
    /// A word that can be left out.
    WordOrNone,
    /// A word that is a number, and that can be left out.
    NumberOrNone,
    /// An option without a value.
    Flag,
    /// An option without a value, allowed only with this option.
    FlagOf(&'static str),
    /// An option without a value, allowed only with the first of these options, and not with the second.
    FlagBeside(&'static str, &'static str),
    /// An option with one value, which must be given.
    Needed,
    /// An option with one value. If it is not given, the environment gives it. If that has none, it must be given.
    Control,
    /// An option with one value.
    Value,
    /// An option with one value, which may be given so many times. If it is not given, the second part says in words what holds.
    Values(usize, &'static str),
    /// An option with one value. If it is not given, this says in words what holds.
    ValueElse(&'static str),
    /// An option with one value. This is the default.
    ValueOr(&'static str),
    /// An option with one value, allowed only with the first of these options, and not with the second.
    ValueBeside(&'static str, &'static str),
    /// An option with one of these values. The second part is the default.
    OneOf(&'static [&'static str], &'static str),
    /// An option with one number of a range.
    Number(Range),
    /// An option with one number of a range. If it is not given, the second part says in words what holds.
    NumberElse(Range, &'static str),
    /// An option with one number of a range. The second part is the default.
    NumberOr(Range, &'static str),
}

/// An option or a word of a command.
#[derive(Clone, Copy)]
pub struct Part {
    pub name: &'static str,
    pub kind: Kind,
    /// What the help calls its value, if it is an option that has one. `MS` is a number of milliseconds.
    pub value: &'static str,
    pub help: &'static str,
}

impl Part {
    /// The value that was given, or the default. `None` if there is neither.
    pub fn value_if_any<'a>(&self, given: &ArgMatches<'a>) -> Option<&'a str> {
        given.get_str(self.name)
    }

    /// The value that was given, or the default. The empty text if there is neither.
    pub fn value<'a>(&self, given: &ArgMatches<'a>) -> &'a str {
        given.get_str(self.name).unwrap_or("")
    }

    /// All values that were given, each time that it was.
    pub fn values<'a>(
        &self,
        alloc: Global,
        given: &ArgMatches<'a>,
    ) -> Result<Vec<&'a str>, AllocError> {
        let mut values = Vec::new(alloc);
        values.extend_from_slice(given.get_strs(self.name).unwrap_or(&[]))?;
        Ok(values)
    }

    /// How often it may be given, if it was given more often.
    pub fn times_exceeded(&self, given: &ArgMatches<'_>) -> Option<usize> {
        let times = given.get_strs(self.name).unwrap_or(&[]).len();
        match self.kind {
            Kind::Values(most, _) if times > most => Some(most),
            _ => None,
        }
    }

    /// The number that was given, or the default. `None` if there is neither.
    pub fn number_if_any(&self, given: &ArgMatches<'_>) -> Option<u64> {
        given.get_one::<u64>(self.name)
    }

    /// The number that was given, or the default. 0 if there is neither.
    pub fn number(&self, given: &ArgMatches<'_>) -> u64 {
        given.get_one::<u64>(self.name).unwrap_or(0)
    }

    /// Whether an option without a value was given.
    pub fn is_given(&self, given: &ArgMatches<'_>) -> bool {
        given.get_flag(self.name)
    }

    /// The numbers that it takes. `None` if it takes no number.
    fn range(&self) -> Option<Range> {
        match self.kind {
            Kind::NumberOrNone => Some(Range::Any),
            Kind::Number(range) | Kind::NumberElse(range, _) | Kind::NumberOr(range, _) => {
                Some(range)
            }
            _ => None,
        }
    }

    /// Whether it takes a number, and what was given has another character than digits, such as a sign.
    pub fn has_wrong_number(&self, given: &ArgMatches<'_>) -> bool {
        self.range().is_some() && !self.value(given).bytes().all(|byte| byte.is_ascii_digit())
    }

    /// Whether it takes a number, and a number outside its range was given.
    pub fn is_outside(&self, given: &ArgMatches<'_>) -> bool {
        match (self.range(), self.number_if_any(given)) {
            (Some(range), Some(number)) => !range.contains(number),
            _ => false,
        }
    }

    /// The place of a fault of its number.
    pub fn place(&self) -> FaultPlace<'static> {
        FaultPlace::Number(self.name, self.range().unwrap_or(Range::Any))
    }
}

/// Its help, with its limits, and with what holds if it is not given.
impl fmt::Display for Part {
    fn fmt<W: fmt::Write>(&self, f: &mut fmt::Formatter<W>) -> fmt::Result {
        f.write_str(self.help)?;
        match self.range() {
            None | Some(Range::Any) => {}
            Some(range) => write!(f, ", {range}")?,
        }
        match self.kind {
            Kind::ValueElse(words) | Kind::Values(_, words) | Kind::NumberElse(_, words) => {
                write!(f, " [default: {words}]")
            }
            _ => Ok(()),
        }
    }
}
