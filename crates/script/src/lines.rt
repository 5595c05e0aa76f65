//! A line: a letter, one space and a number.

ghost use Rattle.std.specs.Prelude.{◌≡◌, Some};
ghost use Rattle.script.specs.declared.lines.LineError.TheVariants.{Letter};
ghost use Rattle.script.specs.Lines.{Reads, fault_text};

use crate::commands::{Command, UnknownLetter};
use crate::numbers::number_of_bytes;
use std::error::Error;
use std::fmt;
use std::str::FromStr;

/// A command and the number that it is given.
#[derive(Clone, Copy, PartialEq, Eq, Debug)]
pub struct Line {
    pub command: Command,
    pub number: u32,
}

/// Why a text is no line: the first of these that is wrong.
#[derive(Clone, Copy, PartialEq, Eq, Debug)]
pub enum LineError {
    /// It does not begin with one byte and a space.
    Malformed,
    /// Its letter names no command.
    Letter(UnknownLetter),
    /// What follows the space is no number below 2^32.
    Number,
}

impl From<UnknownLetter> for LineError {
    ghost from_gives = { λ letter e. e ≡ Letter letter };

    fn from(letter: UnknownLetter) -> LineError {
        LineError::Letter(letter)
    }
}

/// The line that the text spells: a letter, one space and a number, and no end of line.
impl FromStr for Line {
    type Err = LineError;

    ghost from_str_gives = { Reads };

    fn from_str(text: &str) -> Result<Line, LineError> {
        // The pattern asks for the space too, which no `?` would.
        let Some(([letter, b' '], digits)) = text.as_bytes().split_first_chunk::<2>() else {
            return Err(LineError::Malformed);
        };
        let command = Command::try_from(char::from(*letter))?;
        let number = number_of_bytes(digits).ok_or(LineError::Number)?;
        Ok(Line { command, number })
    }
}

impl fmt::Display for LineError {
    ghost output = { λ e. Some (fault_text e) };

    fn fmt<W: fmt::Write>(&self, f: &mut fmt::Formatter<W>) -> fmt::Result {
        match self {
            LineError::Malformed => write!(f, "no letter and space at the start"),
            LineError::Letter(unknown) => write!(f, "{unknown}"),
            LineError::Number => write!(f, "no number below 2^32 after them"),
        }
    }
}

impl Error for LineError {}
