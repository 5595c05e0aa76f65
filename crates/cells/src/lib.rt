//! The cells of a census: plain rows in a table, and the cell value that is made from one.
//!
//! A `Row` is what the table stores for a place and promises nothing. A `Cell` is made from a row
//! after a test, keeps its counts in order through every change, and is written back whole.

#![tactic(auto)]

mod cell;
mod changes;
mod counts;
mod row;
mod table;

pub use cell::Cell;
pub use row::{Counts, Link, Row, Shape, State};
pub use table::Table;
