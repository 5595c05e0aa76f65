//! New cells.

ghost use Rattle.rc.specs.Calls.{Allocated, New};
ghost use Rattle.rc.specs.Worlds.{world};

use crate::census::Census;
use crate::decline::Decline;
use crate::handle::{Handle, Rc, Ticket};
use blocks::Allocator;
use cells::{Cell, Shape};
use disposal::write_at;
use element::Element;
use references::{hold_all, lacks_some, references_of};

impl<A: Allocator> Census<A> {
    /// A block of `n` places, the only call of the allocator for one.
    pub(crate) fn allocate(&mut self, n: u16) -> Result<u32, Decline>
        ensures { Allocated (world A.meaning self.old) n result (world A.meaning self.new) }
    {
        let offset = self.store.alloc.allocate(usize::from(n))?;
        Ok(offset as u32)
    }

    /// A single cell with `x` in it.
    pub fn new<E: Element>(&mut self, memory: &mut [E], x: E) -> Result<Rc, Decline>
        ensures { New E.refs (world A.meaning self.old) memory.old x result (world A.meaning self.new) memory.new }
    {
        self.check_memory(memory)?;
        let rs = references_of(&x);
        if lacks_some(&self.store.table, &rs) {
            return Err(Decline::References);
        }
        let place = self.allocate(1)?;
        hold_all(&mut self.store.table, &rs);
        self.put(place, Cell::shared(Shape::Single, 1, 1));
        write_at(memory, place as usize, x);
        Ok(Handle::of(Ticket {
            census: self.number,
            place,
        }))
    }
}
