//! The references of elements, as handles of the cells that they name.

#![tactic(auto)]

mod changed;
mod copied;
mod named;
mod taken;

pub use copied::{CountFull, lower, lower_all, raise_all};
pub use named::{lacks_some, references_of};
pub use taken::{hold_all, loosen_all};
