//! Counted cells over one lent memory: `Rc`, `Weak` and their calls, as methods of a census.

#![tactic(auto)]

mod census;
mod checks;
mod counting;
mod decline;
mod ends;
mod handle;
mod look;
mod make;
mod make_mut;
mod numbers;
mod part;
mod raw;
mod release;
mod share;
mod unwrap;

pub use cells::Counts;
pub use census::Census;
pub use decline::{Decline, Refused};
pub use disposal::Receipt;
pub use handle::{Handle, Rc, Ticket, Weak};
