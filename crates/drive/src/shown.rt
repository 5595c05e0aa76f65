//! How a reply is printed.

ghost use Rattle.std.specs.Prelude.{Some};
ghost use Rattle.drive.specs.Texts.{answer_text, reply_text};

use crate::reply::Reply;
use std::fmt;
use std::fmt::Display;

/// An answer: its number, or a dash where there is none.
#[derive(Clone, Copy)]
struct Shown(Option<usize>);

impl Display for Shown {
    ghost output = { λ s. Some (answer_text s.0) };

    fn fmt<W: fmt::Write>(&self, f: &mut fmt::Formatter<W>) -> fmt::Result {
        match self.0 {
            Some(n) => write!(f, "{n}"),
            None => write!(f, "-"),
        }
    }
}

/// The letter, the answer and the counts; a decline by its number; `?` for what is no line.
impl Display for Reply {
    ghost output = { λ r. Some (reply_text r) };

    fn fmt<W: fmt::Write>(&self, f: &mut fmt::Formatter<W>) -> fmt::Result {
        match *self {
            Reply::Answered {
                command,
                answer,
                strong,
                weak,
            } => {
                let answer = Shown(answer);
                write!(f, "{command} {answer} {strong} {weak}")
            }
            Reply::Declined(why) => {
                let number = u8::from(why);
                write!(f, "! {number}")
            }
            Reply::Unknown => write!(f, "?"),
        }
    }
}
