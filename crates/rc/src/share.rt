//! More handles of a cell.

ghost use Rattle.rc.specs.Calls.{Downgrade, Upgrade};
ghost use Rattle.rc.specs.Worlds.{world};

use crate::census::Census;
use crate::decline::Decline;
use crate::handle::{Handle, Rc, Weak};
use blocks::Allocator;
use element::{Element, Sort};

impl<A: Allocator> Census<A> {
    /// A weak handle of the cell.
    pub fn downgrade<E: Element>(&mut self, memory: &[E], rc: &Rc) -> Result<Weak, Decline>
        ensures { Downgrade (world A.meaning self.old) memory.now rc.now.ticket result (world A.meaning self.new) }
    {
        let ticket = rc.ticket;
        let cell = self.admit(memory, Sort::Strong, ticket)?;
        let more = cell.inc(Sort::Weak).ok_or(Decline::Count)?;
        self.put(ticket.place, more);
        Ok(Handle::of(Some(ticket)))
    }

    /// An `Rc` of the cell, while it has a strong handle.
    pub fn upgrade<E: Element>(&mut self, memory: &[E], weak: &Weak) -> Result<Option<Rc>, Decline>
        ensures { Upgrade (world A.meaning self.old) memory.now weak.now.ticket result (world A.meaning self.new) }
    {
        self.check_memory(memory)?;
        let Some(ticket) = weak.ticket else {
            return Ok(None);
        };
        let cell = self.check_handle(Sort::Weak, ticket)?;
        if cell.counts.strong == 0 {
            return Ok(None);
        }
        let more = cell.inc(Sort::Strong).ok_or(Decline::Count)?;
        self.put(ticket.place, more);
        Ok(Some(Handle::of(ticket)))
    }
}
