//! The walk over the cells under disposal. Each has a link to the one that it was released from,
//! so that the walk needs no room of its own; a turn of it lists one element, releases one
//! reference or closes one cell.
// Each contract asks for `room`, as those of the counts do.
// The list and the receipt are passed apart: with a struct of both, `release` and `dispose` get no generated proof.

ghost use Rattle.std.specs.Prelude.{◌≡◌, ◌<◌, ◌≤◌, slice_set};
ghost use Rattle.cells.specs.Rows.{link_at};
ghost use Rattle.cells.specs.Tables.{counts_in, links_in};
ghost use Rattle.disposal.specs.Books.{closed, one_listed};
ghost use Rattle.disposal.specs.Stores.{books_of, world_of, Resting};
ghost use Rattle.disposal.specs.Walks.{room, released, entered, onto, next_reference, past_reference, past_element, past_end, Turned, walk_of, Chain, Idle, Does, todo, stack_of, tally};

use crate::elements::{reference_at, write_at};
use crate::store::{Receipt, Store};
use blocks::Allocator;
use cells::Link;
use element::{Element, Reference};

/// How many references an element can hold.
pub(crate) const REFERENCES: u8 = 4;

impl<A: Allocator> Store<A> {
    /// Releases `r`, which the cell at `from` holds, and answers the cell to go on with.
    pub(crate) fn lower(
        &mut self,
        r: Reference,
        from: Option<u16>,
        receipt: &mut Receipt,
    ) -> Option<u16>
        requires { room receipt.old }
        ensures books { books_of A.meaning self.new receipt.new ≡ released r (books_of A.meaning self.old receipt.old) }
        ensures links { links_in self.new.table ≡ entered r (books_of A.meaning self.old receipt.old) (links_in self.old.table) from }
        ensures place { result ≡ onto r (books_of A.meaning self.old receipt.old) from }
    {
        match r {
            Reference::Empty => from,
            Reference::Strong(q) => self.lower_strong(q as usize, from, receipt),
            Reference::Weak(q) => {
                self.lower_weak(q as usize, receipt);
                from
            }
        }
    }

    /// Releases the next reference of the element that was listed last. The place and its link go
    /// together through a turn, and not as one: each of the three takes them apart again.
    fn turn_reference<E: Element>(
        &mut self,
        memory: &[E],
        p: u16,
        link: Link,
        receipt: &mut Receipt,
    ) -> Option<u16>
        requires room { room receipt.old }
        requires more { link.reference < 4 }
        ensures books { books_of A.meaning self.new receipt.new ≡ released (next_reference E.refs memory.now link) (books_of A.meaning self.old receipt.old) }
        ensures links { links_in self.new.table ≡ past_reference (next_reference E.refs memory.now link) (books_of A.meaning self.old receipt.old) (links_in self.old.table) p link }
        ensures place { result ≡ onto (next_reference E.refs memory.now link) (books_of A.meaning self.old receipt.old) (Some p) }
    {
        let listed = (link.next as usize).saturating_sub(1);
        let r = reference_at(memory, listed, link.reference as usize);
        let after = Link {
            reference: link.reference + 1,
            ..link
        };
        self.table.relink(usize::from(p), Some(after));
        self.lower(r, Some(p), receipt)
    }

    /// Lists the next element, which is `x`.
    fn turn_element<E: Element>(
        &mut self,
        list: &mut [E],
        p: u16,
        link: Link,
        x: E,
        receipt: &mut Receipt,
    )
        requires room { room receipt.old }
        requires more { link.next < link.end }
        ensures list { list.new ≡ slice_set list.old receipt.old.listed x }
        ensures books { books_of A.meaning self.new receipt.new ≡ books_of A.meaning self.old (one_listed receipt.old) }
        ensures links { links_in self.new.table ≡ past_element (links_in self.old.table) p link }
    {
        write_at(list, receipt.listed, x);
        receipt.listed += 1;
        let after = Link {
            next: link.next + 1,
            reference: 0,
            ..link
        };
        self.table.relink(usize::from(p), Some(after));
    }

    /// Closes the cell, and answers the one that it was released from.
    fn turn_close(&mut self, p: u16, link: Link, receipt: &mut Receipt) -> Option<u16>
        requires { room receipt.old }
        ensures books { books_of A.meaning self.new receipt.new ≡ closed (books_of A.meaning self.old receipt.old) p }
        ensures links { links_in self.new.table ≡ past_end (links_in self.old.table) p }
        ensures place { result ≡ link.back }
    {
        let p = usize::from(p);
        self.table.relink(p, None);
        self.close(p, receipt);
        link.back
    }

    /// One turn of the walk, at the cell at `p`: which of the three it is shows in the link alone. Answers
    /// the cell to go on with.
    fn turn<E: Element>(
        &mut self,
        memory: &[E],
        list: &mut [E],
        p: u16,
        link: Link,
        receipt: &mut Receipt,
    ) -> Option<u16>
        requires room { room receipt.old }
        requires link { link_at (links_in self.old.table) p ≡ Some link }
        ensures { Turned E.refs memory.now (walk_of A.meaning self.old receipt.old list.old (Some p)) (walk_of A.meaning self.new receipt.new list.new result) }
    {
        if link.reference < REFERENCES {
            self.turn_reference(memory, p, link, receipt)
        } else if link.next < link.end
            && let Some(x) = memory.get(link.next as usize)
        {
            self.turn_element(list, p, link, *x, receipt);
            Some(p)
        } else {
            self.turn_close(p, link, receipt)
        }
    }

    /// Goes on from the cell at `from` until no cell is under disposal.
    pub(crate) fn walk<E: Element>(
        &mut self,
        memory: &[E],
        list: &mut [E],
        from: Option<u16>,
        receipt: &mut Receipt,
    )
        requires stack { Chain (counts_in self.old.table) (links_in self.old.table) from (stack_of from) }
        requires few { tally receipt.old ≤ 1 }
        ensures does { Does E.refs memory.now (todo E.refs memory.now (links_in self.old.table) (stack_of from)) (world_of A.meaning self.old receipt.old list.old) (world_of A.meaning self.new receipt.new list.new) }
        ensures rests { Idle (links_in self.old.table) (stack_of from) → Resting (links_in self.new.table) }
    {
        let mut place = from;
        while let Some(p) = place {
            let Some(link) = self.table.get(usize::from(p)).link else {
                unreachable()
            };
            place = self.turn(memory, list, p, link, receipt);
        }
    }
}
