//! Disposal: what the release of a handle does to the cells, and to the elements in them.

#![tactic(auto)]

mod counts;
mod elements;
mod laws;
mod release;
mod store;
mod walk;

pub use elements::{reference_at, write_at};
pub use laws::{disposal_is_bounded, disposal_stands};
pub use store::{Receipt, Store};
