//! The commands on loose handles: each takes the handles it needs, and makes them loose again.

ghost use Rattle.std.specs.Prelude.{◌≡◌};
ghost use Rattle.drive.specs.Commands.{Makes, Increments, Downgrades, MakesOwn, Decrements, Upgrades, Unwraps, Releases};
ghost use Rattle.element.specs.declared.note.Note.{Note};
ghost use Rattle.rc.specs.Housed.{AllHoused};
ghost use Rattle.rc.specs.Worlds.{world, opened};

use crate::answer::Answer;
use crate::settle::{settle, settle_weak};
use blocks::Allocator;
use element::{Element, Note};
use rc::{Census, Decline, Refused};

/// A census whose handles are all loose between commands, so that each cell has its block. It is lent
/// the memory, as every census is.
pub(crate) struct Loose<A: Allocator> {
    pub(crate) census: Census<A>,
    ghost homes: { AllHoused (world A.meaning census) },
}

impl<A: Allocator> Loose<A> {
    /// A census without cells.
    pub(crate) fn open(number: u32, alloc: A) -> Loose<A>
        ensures { world A.meaning result.census ≡ opened number (A.meaning alloc) }
    {
        Loose {
            census: Census::open(number, alloc),
        }
    }

    /// A new cell with `x` in it.
    pub(crate) fn make<E: Element>(&mut self, memory: &mut [E], x: E) -> Result<Answer, Decline>
        ensures { Makes E.refs (world A.meaning self.old.census) memory.old x result
            (world A.meaning self.new.census) memory.new }
    {
        let rc = self.census.new(memory, x)?;
        Ok(Answer::at(settle(&mut self.census, memory, rc)))
    }

    /// One strong handle more at the place.
    pub(crate) fn increment<E: Element>(
        &mut self,
        memory: &[E],
        place: u32,
    ) -> Result<Answer, Decline>
        ensures { Increments (world A.meaning self.old.census) memory.now place result
            (world A.meaning self.new.census) }
    {
        self.census.increment_strong_count(memory, place)?;
        Ok(Answer::at(place))
    }

    /// One weak handle more at the place of a strong one.
    pub(crate) fn downgrade<E: Element>(
        &mut self,
        memory: &[E],
        place: u32,
    ) -> Result<Answer, Decline>
        ensures { Downgrades (world A.meaning self.old.census) memory.now place result
            (world A.meaning self.new.census) }
    {
        let rc = self.census.rc_from_raw(memory, place)?;
        let given = self.census.downgrade(memory, &rc);
        settle(&mut self.census, memory, rc);
        let weak = given?;
        settle_weak(&mut self.census, memory, weak);
        Ok(Answer::at(place))
    }

    /// A cell of its own for a strong handle at the place: the place of the handle then.
    pub(crate) fn make_mut<E: Element>(
        &mut self,
        memory: &mut [E],
        place: u32,
    ) -> Result<Answer, Decline>
        ensures { MakesOwn E.refs (world A.meaning self.old.census) memory.old place result
            (world A.meaning self.new.census) memory.new }
    {
        let mut rc = self.census.rc_from_raw(memory, place)?;
        let made = self.census.make_mut(memory, &mut rc);
        let own = settle(&mut self.census, memory, rc);
        made?;
        Ok(Answer::at(own))
    }

    /// A strong handle at the place goes: how many elements were listed.
    pub(crate) fn decrement<E: Element>(
        &mut self,
        memory: &[E],
        list: &mut [E],
        place: u32,
    ) -> Result<Answer, Decline>
        ensures { Decrements E.refs (world A.meaning self.old.census) memory.now list.old place result
            (world A.meaning self.new.census) list.new }
    {
        let receipt = self.census.decrement_strong_count(memory, list, place)?;
        Ok(Answer {
            value: Some(receipt.listed),
            place,
        })
    }

    /// One strong handle more at the place of a weak one; none where no strong handle is left.
    pub(crate) fn upgrade<E: Element>(
        &mut self,
        memory: &[E],
        place: u32,
    ) -> Result<Answer, Decline>
        ensures { Upgrades (world A.meaning self.old.census) memory.now place result
            (world A.meaning self.new.census) }
    {
        let weak = self.census.weak_from_raw(memory, Some(place))?;
        let given = self.census.upgrade(memory, &weak);
        settle_weak(&mut self.census, memory, weak);
        let Some(rc) = given? else {
            return Ok(Answer { value: None, place });
        };
        settle(&mut self.census, memory, rc);
        Ok(Answer::at(place))
    }

    /// The note of a cell that no other strong handle has: its number.
    pub(crate) fn try_unwrap(&mut self, memory: &[Note], place: u32) -> Result<Answer, Decline>
        ensures { Unwraps (λ (n : Note). n.references) (λ (n : Note). n.number)
            (world A.meaning self.old.census) memory.now place result
            (world A.meaning self.new.census) }
    {
        let rc = self.census.rc_from_raw(memory, place)?;
        match self.census.try_unwrap(memory, rc) {
            Ok(note) => Ok(Answer {
                value: Some(note.number as usize),
                place,
            }),
            Err(refused) => {
                // Not in the arm's pattern: the check makes no proof of an arm `Err(Refused { handle, why })`.
                let Refused { handle, why } = refused;
                settle(&mut self.census, memory, handle);
                Err(why)
            }
        }
    }

    /// A weak handle at the place goes: how many blocks came back.
    pub(crate) fn release_weak<E: Element>(
        &mut self,
        memory: &[E],
        place: u32,
    ) -> Result<Answer, Decline>
        ensures { Releases (world A.meaning self.old.census) memory.now place result
            (world A.meaning self.new.census) }
    {
        let weak = self.census.weak_from_raw(memory, Some(place))?;
        let receipt = self.census.release_weak(memory, weak).unwrap();
        Ok(Answer {
            value: Some(receipt.blocks),
            place,
        })
    }
}
