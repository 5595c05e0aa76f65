//! Handles that end.

ghost use Rattle.std.specs.Prelude.{◌≡◌, [], ◌∷◌};
ghost use Rattle.rc.specs.Checks.{Answers, wrong_memory, short_list, no_rc, no_weak};
ghost use Rattle.rc.specs.Ends.{ReleasesRc, ReleasesWeak, Decrement, Goes, WeakGoes};
ghost use Rattle.rc.specs.Tickets.{place_of};
ghost use Rattle.rc.specs.Worlds.{world};

use crate::census::Census;
use crate::decline::{Decline, Refused};
use crate::handle::{Rc, Ticket, Weak};
use blocks::Allocator;
use disposal::Receipt;
use element::{Element, Reference, Sort};

impl<A: Allocator> Census<A> {
    /// Lets the strong handle of a ticket go.
    fn give_back<E: Element>(
        &mut self,
        memory: &[E],
        list: &mut [E],
        ticket: Ticket,
    ) -> Result<Receipt, Decline>
        ensures { Answers (wrong_memory (world A.meaning self.old) memory.now ∷ short_list (world A.meaning self.old) list.old ∷ no_rc (world A.meaning self.old) ticket ∷ []) result
            (λ t. Goes E.refs memory.now ticket.place (world A.meaning self.old) list.old t (world A.meaning self.new) list.new)
            ((world A.meaning self.new ≡ world A.meaning self.old) × (list.new ≡ list.old)) }
    {
        self.check_release(memory, list, ticket)?;
        let gone = Reference::Strong(ticket.place);
        Ok(self.store.release(memory, list, gone))
    }

    /// Lets the weak handle of a ticket go, if it has one.
    fn give_back_weak<E: Element>(
        &mut self,
        memory: &[E],
        ticket: Option<Ticket>,
    ) -> Result<Receipt, Decline>
        ensures { Answers (wrong_memory (world A.meaning self.old) memory.now ∷ no_weak (world A.meaning self.old) ticket ∷ []) result
            (λ t. WeakGoes (world A.meaning self.old) (place_of ticket) t (world A.meaning self.new))
            (world A.meaning self.new ≡ world A.meaning self.old) }
    {
        self.check_memory(memory)?;
        let Some(ticket) = ticket else {
            return Ok(Receipt::default());
        };
        self.check_handle(Sort::Weak, ticket)?;
        Ok(self.store.release_weak(ticket.place as usize))
    }

    /// Lets a strong handle go. With the last one the elements of the cell are disposed of: each is
    /// written to the list, and its references are released.
    pub fn release<E: Element>(
        &mut self,
        memory: &[E],
        list: &mut [E],
        rc: Rc,
    ) -> Result<Receipt, Refused<Rc>>
        ensures { ReleasesRc E.refs (world A.meaning self.old) memory.now list.old rc result (world A.meaning self.new) list.new }
    {
        let receipt = self.give_back(memory, list, rc.ticket);
        rc.spend_on(receipt)
    }

    /// Lets a loose strong handle go, as `release` does.
    pub fn decrement_strong_count<E: Element>(
        &mut self,
        memory: &[E],
        list: &mut [E],
        place: u32,
    ) -> Result<Receipt, Decline>
        ensures { Decrement E.refs (world A.meaning self.old) memory.now list.old place result (world A.meaning self.new) list.new }
    {
        self.check_memory(memory)?;
        self.check_list(list)?;
        self.hold(Sort::Strong, place)?;
        Ok(self.store.release(memory, list, Reference::Strong(place)))
    }

    /// Lets a weak handle go. With the last one the block of the cell goes back.
    pub fn release_weak<E: Element>(
        &mut self,
        memory: &[E],
        weak: Weak,
    ) -> Result<Receipt, Refused<Weak>>
        ensures { ReleasesWeak (world A.meaning self.old) memory.now weak result (world A.meaning self.new) }
    {
        let receipt = self.give_back_weak(memory, weak.ticket);
        weak.spend_on(receipt)
    }
}
