//! The release of handles and owners.

ghost use Rattle.std.specs.Prelude.{◌≡◌};
ghost use Rattle.cells.specs.Tables.{links_in};
ghost use Rattle.disposal.specs.Books.{none_yet, closed, weak_released};
ghost use Rattle.disposal.specs.Disposal.{Release, Abandons};
ghost use Rattle.disposal.specs.Stores.{books_of, world_of, Resting};
ghost use Rattle.disposal.specs.Walks.{tally};

use crate::store::{Receipt, Store};
use blocks::Allocator;
use element::{Element, Reference};

impl<A: Allocator> Store<A> {
    /// Releases `r`, and walks until no cell is under disposal.
    fn settle<E: Element>(
        &mut self,
        memory: &[E],
        list: &mut [E],
        r: Reference,
        receipt: &mut Receipt,
    )
        requires { tally receipt.old ≡ 0 }
        ensures release { Release E.refs memory.now r (world_of A.meaning self.old receipt.old list.old) (world_of A.meaning self.new receipt.new list.new) }
        ensures links { Resting (links_in self.old.table) → Resting (links_in self.new.table) }
    {
        let place = self.lower(r, None, receipt);
        self.walk(memory, list, place, receipt);
    }

    /// Releases `r`. The elements of the cells that die by it are written to the list, in the order
    /// in which they go; those that it has no place for are counted only.
    pub fn release<E: Element>(&mut self, memory: &[E], list: &mut [E], r: Reference) -> Receipt
        ensures release { Release E.refs memory.now r (world_of A.meaning self.old none_yet list.old) (world_of A.meaning self.new result list.new) }
        ensures links { Resting (links_in self.old.table) → Resting (links_in self.new.table) }
    {
        let mut receipt = Receipt::default();
        self.settle(memory, list, r, &mut receipt);
        receipt
    }

    /// The last owner at `p` lets go of its cell, with the elements in it.
    pub fn dispose<E: Element>(&mut self, memory: &[E], list: &mut [E], p: usize) -> Receipt
        ensures dispose { Abandons E.refs memory.now p (world_of A.meaning self.old none_yet list.old) (world_of A.meaning self.new result list.new) }
        ensures links { Resting (links_in self.old.table) → Resting (links_in self.new.table) }
    {
        let mut receipt = Receipt::default();
        let Some(place) = self.begin(p, None, &mut receipt) else {
            receipt.strays += 1;
            return receipt;
        };
        self.walk(memory, list, Some(place), &mut receipt);
        receipt
    }

    /// Releases a weak handle at `p`, by which no element goes.
    pub fn release_weak(&mut self, p: usize) -> Receipt
        ensures books { books_of A.meaning self.new result ≡ weak_released (books_of A.meaning self.old none_yet) p }
        ensures links { links_in self.new.table ≡ links_in self.old.table }
    {
        let mut receipt = Receipt::default();
        self.lower_weak(p, &mut receipt);
        receipt
    }

    /// The last owner at `p` goes, whose elements have gone elsewhere.
    pub fn retire(&mut self, p: usize) -> Receipt
        ensures books { books_of A.meaning self.new result ≡ closed (books_of A.meaning self.old none_yet) p }
        ensures links { links_in self.new.table ≡ links_in self.old.table }
    {
        let mut receipt = Receipt::default();
        self.close(p, &mut receipt);
        receipt
    }
}
