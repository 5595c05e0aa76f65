//! The elements of a cell, as a part of the memory.

ghost use Rattle.rc.specs.Calls.{Look};
ghost use Rattle.rc.specs.Worlds.{world};

use crate::census::Census;
use crate::decline::Decline;
use crate::handle::Rc;
use crate::part::part;
use blocks::Allocator;
use element::{Element, Sort};

impl<A: Allocator> Census<A> {
    /// The elements of the cell.
    pub fn look<'a, E: Element>(&self, memory: &'a [E], rc: &Rc) -> Result<&'a [E], Decline>
        ensures { Look (world A.meaning self.now) memory.now rc.now.ticket result }
    {
        let cell = self.admit(memory, Sort::Strong, rc.ticket)?;
        Ok(part(
            memory,
            rc.ticket.place as usize,
            usize::from(cell.counts.standing),
        ))
    }
}
