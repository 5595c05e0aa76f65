//! Every change of a cell's counts, by value.

ghost use Rattle.std.specs.Prelude.{◌≡◌, nat_lt};
ghost use Rattle.cells.specs.Changes.{Reads, Becomes, Begins};
ghost use Rattle.cells.specs.Counts.{shared, loose, admits, one_more, one_less, one_looser, one_held, may_inc, last_owner, ownerless};
ghost use Rattle.cells.specs.Rows.{at_rest};

use crate::cell::Cell;
use crate::row::{Counts, Link, Row, Shape, State};
use element::Sort;

impl Cell {
    /// The cell of a row, if one stands there with its counts in order. That none does is no error, so
    /// this is no `TryFrom`.
    pub fn of(row: Row) -> Option<Cell>
        ensures { Reads row result }
    {
        let counts = row.counts;
        let link = row.link;
        if counts.state == State::Free {
            return None;
        }
        let least = u32::from(counts.loose_weak) + u32::from(counts.owner());
        if counts.loose_strong > counts.strong || least > u32::from(counts.weak) {
            return None;
        }
        Some(Cell { counts, link })
    }

    /// A cell with one `Rc`.
    pub fn shared(shape: Shape, size: u16, standing: u16) -> Cell
        ensures counts { result.counts ≡ shared shape size standing }
        ensures link { result.link ≡ at_rest }
    {
        let counts = Counts {
            state: State::Counted,
            shape,
            strong: 1,
            weak: 1,
            loose_strong: 0,
            loose_weak: 0,
            size,
            standing,
        };
        Cell { counts, link: None }
    }

    /// Whether a handle of the sort that is neither loose nor the owner's can be out.
    pub fn admits(&self, sort: Sort) -> bool
        ensures { result ≡ admits sort self.now.counts }
    {
        let owned = match sort {
            Sort::Strong => 0,
            Sort::Weak => self.counts.owner(),
        };
        self.counts.loose(sort) < self.counts.handles(sort) - owned
    }

    /// One handle of the sort more, unless the count is full. A strong one comes only beside another.
    pub fn inc(self, sort: Sort) -> Option<Cell>
        ensures { Becomes self (may_inc sort self.counts) (one_more sort self.counts) result }
    {
        if sort == Sort::Strong && self.counts.strong == 0 {
            return None;
        }
        let n = self.counts.handles(sort).checked_add(1)?;
        let counts = self.counts.with_handles(sort, n);
        Some(Cell {
            counts,
            link: self.link,
        })
    }

    /// One handle of the sort less, of those that are neither loose nor the owner's.
    pub fn dec(self, sort: Sort) -> Option<Cell>
        ensures { Becomes self (admits sort self.counts) (one_less sort self.counts) result }
    {
        if !self.admits(sort) {
            return None;
        }
        let n = self.counts.handles(sort) - 1;
        let counts = self.counts.with_handles(sort, n);
        Some(Cell {
            counts,
            link: self.link,
        })
    }

    /// A handle of the sort becomes loose.
    pub fn loosen(self, sort: Sort) -> Option<Cell>
        ensures { Becomes self (admits sort self.counts) (one_looser sort self.counts) result }
    {
        if !self.admits(sort) {
            return None;
        }
        let n = self.counts.loose(sort) + 1;
        let counts = self.counts.with_loose(sort, n);
        Some(Cell {
            counts,
            link: self.link,
        })
    }

    /// A loose handle of the sort becomes a held one.
    pub fn hold(self, sort: Sort) -> Option<Cell>
        ensures { Becomes self (nat_lt 0 (loose sort self.counts)) (one_held sort self.counts) result }
    {
        let n = self.counts.loose(sort).checked_sub(1)?;
        let counts = self.counts.with_loose(sort, n);
        Some(Cell {
            counts,
            link: self.link,
        })
    }

    /// The last owner goes, and the elements are on their way out: the cell is under disposal, with
    /// `link` for where that has come to.
    pub fn begin_disposal(self, link: Link) -> Option<Cell>
        ensures { Begins self link result }
    {
        if !self.counts.has_last_owner() {
            return None;
        }
        let counts = Counts {
            state: State::Disposing,
            strong: 0,
            standing: 0,
            ..self.counts
        };
        Some(Cell {
            counts,
            link: Some(link),
        })
    }

    /// The last owner goes with its weak count, and no element is left.
    pub fn retire(self) -> Option<Cell>
        ensures { Becomes self (last_owner self.counts) (ownerless self.counts) result }
    {
        if !self.counts.has_last_owner() {
            return None;
        }
        let counts = Counts {
            state: State::Counted,
            strong: 0,
            weak: self.counts.weak - 1,
            standing: 0,
            ..self.counts
        };
        Some(Cell {
            counts,
            link: self.link,
        })
    }
}

/// The row to write back.
impl From<Cell> for Row {
    ghost from_gives = { λ c r. (r.counts ≡ c.counts) × (r.link ≡ c.link) };

    fn from(cell: Cell) -> Row {
        Row {
            counts: cell.counts,
            link: cell.link,
        }
    }
}
