//! The census of one memory.

ghost use Rattle.std.specs.Prelude.{◌≡◌};
ghost use Rattle.cells.specs.Rows.{at};
ghost use Rattle.rc.specs.Worlds.{world, with_row, StandsAs};

use blocks::Allocator;
use cells::{Cell, Row};
use disposal::Store;

/// Counts the cells of one memory. Censuses that are open together have different numbers.
pub struct Census<A: Allocator> {
    pub(crate) number: u32,
    pub(crate) store: Store<A>,
}

impl<A: Allocator> Census<A> {
    /// The cell at a place, if one stands there.
    pub(crate) fn cell(&self, place: u32) -> Option<Cell>
        ensures { StandsAs (at (world A.meaning self.now).rows place) result }
    {
        Cell::of(self.store.table.get(place as usize))
    }

    /// Writes a cell at a place.
    pub(crate) fn put(&mut self, place: u32, cell: Cell)
        ensures { world A.meaning self.new ≡ with_row (world A.meaning self.old) place cell.counts }
    {
        self.store.table.put(place as usize, Row::from(cell));
    }
}
