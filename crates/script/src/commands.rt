//! The commands of a script, each with its letter.

ghost use Rattle.std.specs.Prelude.{◌≡◌, Some, encode_utf8};
ghost use Rattle.script.specs.Commands.{letter_of, Names, LettersUndo, unknown_text};

use std::error::Error;
use std::fmt;

/// What a line asks for.
#[derive(Clone, Copy, PartialEq, Eq, Debug)]
pub enum Command {
    New,
    Increment,
    Downgrade,
    MakeMut,
    Decrement,
    Upgrade,
    TryUnwrap,
    ReleaseWeak,
}

/// A letter that names no command.
#[derive(Clone, Copy, PartialEq, Eq, Debug)]
pub struct UnknownLetter(pub char);

/// The letter that names the command.
impl From<Command> for char {
    ghost from_gives = { λ command letter. letter ≡ letter_of command };

    fn from(command: Command) -> char
        ensures letter { result ≡ letter_of command }
        ensures undone { LettersUndo }
    {
        match command {
            Command::New => 'n',
            Command::Increment => 'c',
            Command::Downgrade => 'w',
            Command::MakeMut => 'm',
            Command::Decrement => 'd',
            Command::Upgrade => 'u',
            Command::TryUnwrap => 't',
            Command::ReleaseWeak => 'r',
        }
    }
}

/// The command that the letter names, if it names one.
impl TryFrom<char> for Command {
    type Error = UnknownLetter;

    ghost try_from_gives = { Names };

    fn try_from(letter: char) -> Result<Self, UnknownLetter> {
        match letter {
            'n' => Ok(Command::New),
            'c' => Ok(Command::Increment),
            'w' => Ok(Command::Downgrade),
            'm' => Ok(Command::MakeMut),
            'd' => Ok(Command::Decrement),
            'u' => Ok(Command::Upgrade),
            't' => Ok(Command::TryUnwrap),
            'r' => Ok(Command::ReleaseWeak),
            _ => Err(UnknownLetter(letter)),
        }
    }
}

/// A command is printed as its letter.
impl fmt::Display for Command {
    ghost output = { λ command. Some (encode_utf8 (letter_of command)) };

    fn fmt<W: fmt::Write>(&self, f: &mut fmt::Formatter<W>) -> fmt::Result {
        f.write_char(char::from(*self))
    }
}

impl fmt::Display for UnknownLetter {
    ghost output = { λ unknown. Some (unknown_text unknown) };

    fn fmt<W: fmt::Write>(&self, f: &mut fmt::Formatter<W>) -> fmt::Result {
        write!(f, "no command has the letter {}", self.0)
    }
}

impl Error for UnknownLetter {}
