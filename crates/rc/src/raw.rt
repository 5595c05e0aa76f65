//! Handles made raw, and made from raw numbers. A `Weak` may be empty, so its calls answer another type
//! than those of an `Rc`; what they share goes by the sort.

ghost use Rattle.std.specs.Prelude.{◌≡◌, [], ◌∷◌};
ghost use Rattle.rc.specs.Calls.{RcIntoRaw, RcFromRaw, WeakIntoRaw, WeakFromRaw, Increment, loosened_at, held_at};
ghost use Rattle.rc.specs.Checks.{Answers, wrong_memory, no_handle, no_loose};
ghost use Rattle.rc.specs.Tickets.{ticket_of};
ghost use Rattle.rc.specs.Worlds.{world};

use crate::census::Census;
use crate::decline::{Decline, Refused};
use crate::handle::{Handle, Rc, Ticket, Weak};
use blocks::Allocator;
use element::{Element, Sort};

impl<A: Allocator> Census<A> {
    /// Makes a handle loose, and answers its place.
    fn loosen<E: Element>(
        &mut self,
        memory: &[E],
        sort: Sort,
        ticket: Ticket,
    ) -> Result<u32, Decline>
        ensures { Answers (wrong_memory (world A.meaning self.old) memory.now ∷ no_handle sort (world A.meaning self.old) ticket ∷ []) result
            (λ p. (p ≡ ticket.place) × (world A.meaning self.new ≡ loosened_at sort (world A.meaning self.old) ticket.place))
            (world A.meaning self.new ≡ world A.meaning self.old) }
    {
        let cell = self.admit(memory, sort, ticket)?;
        let loose = cell.loosen(sort).ok_or(Decline::Handle)?;
        self.put(ticket.place, loose);
        Ok(ticket.place)
    }

    /// Holds a loose handle again, and answers its ticket.
    pub(crate) fn hold(&mut self, sort: Sort, place: u32) -> Result<Ticket, Decline>
        ensures { Answers (no_loose sort (world A.meaning self.old) place ∷ []) result
            (λ t. (t ≡ ticket_of (world A.meaning self.old).number place) × (world A.meaning self.new ≡ held_at sort (world A.meaning self.old) place))
            (world A.meaning self.new ≡ world A.meaning self.old) }
    {
        let cell = self.check_loose(sort, place)?;
        let held = cell.hold(sort).ok_or(Decline::Loose)?;
        self.put(place, held);
        Ok(Ticket {
            census: self.number,
            place,
        })
    }

    /// Makes the handle loose, and answers its place.
    pub fn rc_into_raw<E: Element>(&mut self, memory: &[E], rc: Rc) -> Result<u32, Refused<Rc>>
        ensures { RcIntoRaw (world A.meaning self.old) memory.now rc result (world A.meaning self.new) }
    {
        let place = self.loosen(memory, Sort::Strong, rc.ticket);
        rc.spend_on(place)
    }

    /// The `Rc` of a loose strong handle.
    pub fn rc_from_raw<E: Element>(&mut self, memory: &[E], place: u32) -> Result<Rc, Decline>
        ensures { RcFromRaw (world A.meaning self.old) memory.now place result (world A.meaning self.new) }
    {
        self.check_memory(memory)?;
        Ok(Handle::of(self.hold(Sort::Strong, place)?))
    }

    /// Makes the handle loose, and answers its place; an empty one becomes the empty reference.
    pub fn weak_into_raw<E: Element>(
        &mut self,
        memory: &[E],
        weak: Weak,
    ) -> Result<Option<u32>, Refused<Weak>>
        ensures { WeakIntoRaw (world A.meaning self.old) memory.now weak result (world A.meaning self.new) }
    {
        let place = match weak.ticket {
            Some(ticket) => self.loosen(memory, Sort::Weak, ticket).map(Some),
            None => self.check_memory(memory).map(|()| None),
        };
        weak.spend_on(place)
    }

    /// The `Weak` of a loose weak handle; an empty one of the empty reference.
    pub fn weak_from_raw<E: Element>(
        &mut self,
        memory: &[E],
        place: Option<u32>,
    ) -> Result<Weak, Decline>
        ensures { WeakFromRaw (world A.meaning self.old) memory.now place result (world A.meaning self.new) }
    {
        self.check_memory(memory)?;
        let Some(place) = place else {
            return Ok(Weak::new());
        };
        Ok(Handle::of(Some(self.hold(Sort::Weak, place)?)))
    }

    /// Gives one more strong handle, a loose one, for a cell that has one.
    pub fn increment_strong_count<E: Element>(
        &mut self,
        memory: &[E],
        place: u32,
    ) -> Result<(), Decline>
        ensures { Increment (world A.meaning self.old) memory.now place result (world A.meaning self.new) }
    {
        self.check_memory(memory)?;
        let cell = self.check_strong(place)?;
        let more = cell.inc(Sort::Strong).ok_or(Decline::Count)?;
        let loose = more.loosen(Sort::Strong).ok_or(Decline::Count)?;
        self.put(place, loose);
        Ok(())
    }
}
