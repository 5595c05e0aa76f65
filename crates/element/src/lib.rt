//! What a memory holds: plain data that says its references to cells.

#![tactic(auto)]

mod letter;
mod note;
mod reference;

pub use letter::Letter;
pub use note::Note;
pub use reference::{Element, Reference, Sort};
