//! The checks of the calls, each in one place.

ghost use Rattle.std.specs.Prelude.{◌≡◌, [], ◌∷◌, take, drop};
ghost use Rattle.element.specs.declared.reference.Sort.TheVariants.{Strong};
ghost use Rattle.rc.specs.Checks.{Answers, wrong_memory, short_list, no_handle, no_rc, no_weak, no_loose, no_strong, past_memory, slice_cell, not_sole};
ghost use Rattle.rc.specs.Worlds.{world, IsCellAt, IsCellOf};

use crate::census::Census;
use crate::decline::Decline;
use crate::handle::Ticket;
use blocks::Allocator;
use cells::{Cell, Shape};
use element::{Element, Sort};

impl<A: Allocator> Census<A> {
    /// 1: the memory lent is as long as the extent.
    pub(crate) fn check_memory<E: Element>(&self, memory: &[E]) -> Result<(), Decline>
        ensures { Answers (wrong_memory (world A.meaning self.now) memory.now ∷ []) result (λ _. Unit {0}) (Unit {0}) }
    {
        if memory.len() == self.store.alloc.extent() {
            Ok(())
        } else {
            Err(Decline::Memory)
        }
    }

    /// 2: the list has room for all elements standing.
    pub(crate) fn check_list<E: Element>(&self, list: &[E]) -> Result<(), Decline>
        ensures { Answers (short_list (world A.meaning self.now) list.now ∷ []) result (λ _. Unit {0}) (Unit {0}) }
    {
        if list.len() < self.store.table.standing() {
            Err(Decline::List)
        } else {
            Ok(())
        }
    }

    /// 3: a cell of this census admits the handle.
    pub(crate) fn check_handle(&self, sort: Sort, ticket: Ticket) -> Result<Cell, Decline>
        ensures { Answers (no_handle sort (world A.meaning self.now) ticket ∷ []) result (IsCellAt (world A.meaning self.now) ticket.place) (Unit {0}) }
    {
        if ticket.census != self.number {
            return Err(Decline::Handle);
        }
        self.cell(ticket.place)
            .filter(|cell| cell.admits(sort))
            .ok_or(Decline::Handle)
    }

    /// 4: a handle of the sort is loose at `place`.
    pub(crate) fn check_loose(&self, sort: Sort, place: u32) -> Result<Cell, Decline>
        ensures { Answers (no_loose sort (world A.meaning self.now) place ∷ []) result (IsCellAt (world A.meaning self.now) place) (Unit {0}) }
    {
        self.cell(place)
            .filter(|cell| cell.counts.loose(sort) > 0)
            .ok_or(Decline::Loose)
    }

    /// 4: a strong handle is out at `place`.
    pub(crate) fn check_strong(&self, place: u32) -> Result<Cell, Decline>
        ensures { Answers (no_strong (world A.meaning self.now) place ∷ []) result (IsCellAt (world A.meaning self.now) place) (Unit {0}) }
    {
        self.cell(place)
            .filter(|cell| cell.counts.strong > 0)
            .ok_or(Decline::Loose)
    }

    /// 1 and 3, for a handle that is not empty.
    pub(crate) fn admit<E: Element>(
        &self,
        memory: &[E],
        sort: Sort,
        ticket: Ticket,
    ) -> Result<Cell, Decline>
        ensures { Answers (wrong_memory (world A.meaning self.now) memory.now ∷ no_handle sort (world A.meaning self.now) ticket ∷ []) result (IsCellAt (world A.meaning self.now) ticket.place) (Unit {0}) }
    {
        self.check_memory(memory)?;
        self.check_handle(sort, ticket)
    }

    /// 1 and 3, for a `Weak`: its cell, and none of an empty one.
    pub(crate) fn admit_weak<E: Element>(
        &self,
        memory: &[E],
        ticket: Option<Ticket>,
    ) -> Result<Option<Cell>, Decline>
        ensures { Answers (wrong_memory (world A.meaning self.now) memory.now ∷ no_weak (world A.meaning self.now) ticket ∷ []) result (IsCellOf (world A.meaning self.now) ticket) (Unit {0}) }
    {
        self.check_memory(memory)?;
        let Some(ticket) = ticket else {
            return Ok(None);
        };
        Ok(Some(self.check_handle(Sort::Weak, ticket)?))
    }

    /// 1, 2 and 3, for the release of an `Rc`.
    pub(crate) fn check_release<E: Element>(
        &self,
        memory: &[E],
        list: &[E],
        ticket: Ticket,
    ) -> Result<Cell, Decline>
        ensures { Answers (wrong_memory (world A.meaning self.now) memory.now ∷ short_list (world A.meaning self.now) list.now ∷ no_rc (world A.meaning self.now) ticket ∷ []) result (λ _. Unit {0}) (Unit {0}) }
    {
        self.check_memory(memory)?;
        self.check_list(list)?;
        self.check_handle(Sort::Strong, ticket)
    }

    /// 1, 3, 5 and 8, for an element to be handed out: the element, lent, so that a decline moves none.
    pub(crate) fn check_unwrap<'a, E: Element>(
        &self,
        memory: &'a [E],
        ticket: Ticket,
    ) -> Result<&'a E, Decline>
        ensures { Answers (wrong_memory (world A.meaning self.now) memory.now ∷ no_rc (world A.meaning self.now) ticket ∷ past_memory memory.now ticket.place ∷ slice_cell (world A.meaning self.now) ticket.place ∷ not_sole (world A.meaning self.now) ticket.place ∷ []) result (λ x. take 1 (drop ticket.place memory.now) ≡ x.now ∷ []) (Unit {0}) }
    {
        let cell = self.admit(memory, Sort::Strong, ticket)?;
        let x = memory.get(ticket.place as usize).ok_or(Decline::Handle)?;
        if cell.counts.shape == Shape::Slice {
            return Err(Decline::Slice);
        }
        if cell.counts.strong != 1 {
            return Err(Decline::Shared);
        }
        Ok(x)
    }
}
