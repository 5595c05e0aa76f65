//! What goes with a count of a cell: its block with the last weak count, its elements with the
//! last strong one.
// Each contract asks for `room`: every turn uses up one of it, so no type's invariant can keep it.

ghost use Rattle.std.specs.Prelude.{◌≡◌, if◌then◌else◌, slice_set};
ghost use Rattle.element.specs.declared.reference.Reference.TheVariants.{Strong};
ghost use Rattle.cells.specs.Rows.{at, link_at};
ghost use Rattle.cells.specs.Tables.{counts_in, links_in};
ghost use Rattle.disposal.specs.Books.{returned, left_with, sole, begun, closed, weak_released};
ghost use Rattle.disposal.specs.Stores.{books_of};
ghost use Rattle.disposal.specs.Walks.{room, fresh, entered, onto, strong_released};

use crate::store::{Receipt, Store};
use crate::walk::REFERENCES;
use blocks::Allocator;
use cells::{Cell, Link, Row};
use element::Sort;

impl<A: Allocator> Store<A> {
    /// The block of the cell at `p` goes back.
    fn give_back(&mut self, p: usize, receipt: &mut Receipt)
        requires { room receipt.old }
        ensures books { books_of A.meaning self.new receipt.new ≡ returned (books_of A.meaning self.old receipt.old) p }
        ensures links { links_in self.new.table ≡ links_in self.old.table }
    {
        let size = usize::from(self.table.get(p).counts.size);
        self.table.vacate(p);
        if self.alloc.deallocate(p, size).is_ok() {
            receipt.blocks += 1;
        }
    }

    /// Writes the cell at `p` back; without a weak count its block goes back.
    fn leave(&mut self, p: usize, cell: Cell, receipt: &mut Receipt)
        requires room { room receipt.old }
        requires link { cell.link ≡ link_at (links_in self.old.table) p }
        ensures books { books_of A.meaning self.new receipt.new ≡ left_with (books_of A.meaning self.old receipt.old) p cell.counts }
        ensures links { links_in self.new.table ≡ links_in self.old.table }
    {
        if cell.counts.weak > 0 {
            self.table.put(p, Row::from(cell));
        } else {
            self.give_back(p, receipt);
        }
    }

    /// A weak handle at `p` goes.
    pub(crate) fn lower_weak(&mut self, p: usize, receipt: &mut Receipt)
        requires { room receipt.old }
        ensures books { books_of A.meaning self.new receipt.new ≡ weak_released (books_of A.meaning self.old receipt.old) p }
        ensures links { links_in self.new.table ≡ links_in self.old.table }
    {
        match Cell::of(self.table.get(p)).and_then(|cell| cell.dec(Sort::Weak)) {
            Some(cell) => self.leave(p, cell, receipt),
            None => receipt.strays += 1,
        }
    }

    /// The last owner at `p` goes, with its weak count.
    pub(crate) fn close(&mut self, p: usize, receipt: &mut Receipt)
        requires { room receipt.old }
        ensures books { books_of A.meaning self.new receipt.new ≡ closed (books_of A.meaning self.old receipt.old) p }
        ensures links { links_in self.new.table ≡ links_in self.old.table }
    {
        if let Some(cell) = Cell::of(self.table.get(p)).and_then(|cell| cell.retire()) {
            self.leave(p, cell, receipt);
        }
    }

    /// Begins the disposal of the cell at `p`, released from `back`, if only its last owner keeps
    /// it. Answers the cell to go on with.
    pub(crate) fn begin(
        &mut self,
        p: usize,
        back: Option<u16>,
        receipt: &mut Receipt,
    ) -> Option<u16>
        requires { room receipt.old }
        ensures books { books_of A.meaning self.new receipt.new ≡ (if sole (at (counts_in self.old.table) p) then begun (books_of A.meaning self.old receipt.old) p else books_of A.meaning self.old receipt.old) }
        ensures links { links_in self.new.table ≡ (if sole (at (counts_in self.old.table) p) then slice_set (links_in self.old.table) p (Some (fresh p (at (counts_in self.old.table) p).standing back)) else links_in self.old.table) }
        ensures place { result ≡ (if sole (at (counts_in self.old.table) p) then Some p else back) }
    {
        let Some(cell) = Cell::of(self.table.get(p)) else {
            return back;
        };
        let place = p as u16;
        let next = u32::from(place);
        let link = Link {
            back,
            next,
            end: next + u32::from(cell.counts.standing),
            reference: REFERENCES,
        };
        let Some(dying) = cell.begin_disposal(link) else {
            return back;
        };
        self.table.put(p, Row::from(dying));
        receipt.cells += 1;
        Some(place)
    }

    /// A strong handle at `p` goes, released from `back`; with the last one the disposal of the
    /// cell begins. Answers the cell to go on with.
    pub(crate) fn lower_strong(
        &mut self,
        p: usize,
        back: Option<u16>,
        receipt: &mut Receipt,
    ) -> Option<u16>
        requires { room receipt.old }
        ensures books { books_of A.meaning self.new receipt.new ≡ strong_released (books_of A.meaning self.old receipt.old) p }
        ensures links { links_in self.new.table ≡ entered (Strong p) (books_of A.meaning self.old receipt.old) (links_in self.old.table) back }
        ensures place { result ≡ onto (Strong p) (books_of A.meaning self.old receipt.old) back }
    {
        let Some(cell) = Cell::of(self.table.get(p)).and_then(|cell| cell.dec(Sort::Strong)) else {
            receipt.strays += 1;
            return back;
        };
        if cell.counts.strong == 0 {
            return self.begin(p, back, receipt);
        }
        self.table.put(p, Row::from(cell));
        back
    }
}
