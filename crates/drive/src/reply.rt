//! The reply to a line, as it is printed.

use rc::Decline;
use script::Command;

/// What a line comes to: no `Result`, since each of the three is printed.
#[derive(Clone, Copy)]
pub enum Reply {
    /// The command ran: its answer, and the counts stored at its place.
    Answered {
        command: Command,
        answer: Option<usize>,
        strong: u16,
        weak: u16,
    },
    /// It was declined, and everything is as before.
    Declined(Decline),
    /// The text is no line.
    Unknown,
}
