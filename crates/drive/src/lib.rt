//! Works a census over eight places by the lines of a script. Between lines every handle is loose.

#![tactic(auto)]

mod answer;
mod drive;
mod ends;
mod loose;
mod reply;
mod run;
mod settle;
mod shown;

pub use drive::Drive;
pub use reply::Reply;
