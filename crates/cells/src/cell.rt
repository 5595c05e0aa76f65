//! A cell whose counts are in order.

ghost use Rattle.std.specs.Prelude.{◌≡◌, true};
ghost use Rattle.cells.specs.Counts.{is_cell};

use crate::row::{Counts, Link};

/// A cell, made from its row after a test. The loose handles of either sort never outnumber its
/// count.
#[derive(Clone, Copy)]
pub struct Cell {
    pub counts: Counts,
    /// Where its disposal has come to; none at rest.
    pub link: Option<Link>,
    ghost sound: { is_cell counts ≡ true },
}
