//! Elements handed out of their cells.

ghost use Rattle.std.specs.Prelude.{◌≡◌};
ghost use Rattle.disposal.specs.Books.{none_yet, closed};
ghost use Rattle.rc.specs.Ends.{TryUnwrap, handed_out};
ghost use Rattle.rc.specs.Worlds.{world, after, books};

use crate::census::Census;
use crate::decline::Refused;
use crate::handle::{Rc, Ticket};
use blocks::Allocator;
use element::Element;
use references::{loosen_all, references_of};

impl<A: Allocator> Census<A> {
    /// Hands out the element of a single cell that no other strong handle has. Its references become
    /// loose.
    pub fn try_unwrap<E: Element>(&mut self, memory: &[E], rc: Rc) -> Result<E, Refused<Rc>>
        ensures { TryUnwrap E.refs (world A.meaning self.old) memory.now rc result (world A.meaning self.new) }
    {
        let ticket = rc.ticket;
        // Spent on the checks: what is declined goes back at once.
        let x = rc.spend_on(self.check_unwrap(memory, ticket))?;
        self.hand_out(x, ticket);
        Ok(*x)
    }

    /// The element leaves the cell of a ticket.
    fn hand_out<E: Element>(&mut self, x: &E, ticket: Ticket)
        ensures { world A.meaning self.new ≡ handed_out E.refs (world A.meaning self.old) ticket.place x.now }
    {
        loosen_all(&mut self.store.table, &references_of(x));
        self.give_up(ticket.place);
    }

    /// The owner of the cell at `p`, whose element is handed out, goes with its weak count.
    fn give_up(&mut self, p: u32)
        ensures { world A.meaning self.new ≡ after (world A.meaning self.old) (closed (books (world A.meaning self.old) none_yet) p) }
    {
        let _ = self.store.retire(p as usize);
    }
}
