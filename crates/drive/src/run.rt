//! Lines run by a drive.

ghost use Rattle.drive.specs.Runs.{Obeys, Runs, state_of};
ghost use Rattle.script.specs.Lines.{line_of};

use crate::answer::Answer;
use crate::drive::Drive;
use crate::reply::Reply;
use element::Note;
use rc::Decline;
use script::{Command, Line};

impl Drive {
    /// Does what the line asks for. A `match`, and no table: the eight differ in what they are lent,
    /// and a command that is left out is an error.
    fn obey(&mut self, line: Line) -> Result<Answer, Decline>
        ensures { Obeys line.command line.number (state_of self.old) result (state_of self.new) }
    {
        let n = line.number;
        let Drive {
            loose,
            memory,
            list,
        } = self;
        match line.command {
            Command::New => loose.make(memory, Note::new(n)),
            Command::Increment => loose.increment(memory, n),
            Command::Downgrade => loose.downgrade(memory, n),
            Command::MakeMut => loose.make_mut(memory, n),
            Command::Decrement => loose.decrement(memory, list, n),
            Command::Upgrade => loose.upgrade(memory, n),
            Command::TryUnwrap => loose.try_unwrap(memory, n),
            Command::ReleaseWeak => loose.release_weak(memory, n),
        }
    }

    /// Runs one line, without its end, and says what came of it.
    pub fn run(&mut self, text: &str) -> Reply
        ensures { Runs (line_of text.now) (state_of self.old) result (state_of self.new) }
    {
        let Ok(line) = text.parse::<Line>() else {
            return Reply::Unknown;
        };
        match self.obey(line) {
            Ok(answer) => {
                let counts = self.loose.census.stored(answer.place);
                Reply::Answered {
                    command: line.command,
                    answer: answer.value,
                    strong: counts.strong,
                    weak: counts.weak,
                }
            }
            Err(why) => Reply::Declined(why),
        }
    }
}
