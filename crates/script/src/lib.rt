//! Reads the lines of a script for `rcdrive`: a letter, one space and a 32-bit decimal number.

#![tactic(auto)]

mod commands;
mod lines;
mod numbers;
#[cfg(test)]
mod tests;

pub use commands::{Command, UnknownLetter};
pub use lines::{Line, LineError};
pub use numbers::{number, number_of_bytes};
