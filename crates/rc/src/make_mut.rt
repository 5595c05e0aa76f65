//! A cell of one's own, to write in.

ghost use Rattle.std.specs.Prelude.{◌≡◌, drop};
ghost use Rattle.cells.specs.Counts.{shared};
ghost use Rattle.cells.specs.Rows.{at};
ghost use Rattle.rc.specs.Ends.{MakeMut, Copies, Moves, copied, put_first, IsWay};
ghost use Rattle.rc.specs.Worlds.{world, with_row};

use crate::census::Census;
use crate::decline::Decline;
use crate::handle::Rc;
use blocks::Allocator;
use cells::{Cell, Counts};
use disposal::write_at;
use element::{Element, Reference, Sort};
use references::{lower, lower_all, raise_all};

/// How a handle comes to a cell of its own: a type, so that the choice has a contract.
#[derive(Clone, Copy)]
enum Way {
    /// Another strong handle is out: the elements are copied.
    Copy,
    /// Only weak handles are out besides: the elements move.
    Move,
    /// No other handle is out: it has one.
    Stay,
}

/// The way for a cell, by both counts.
fn way_for(counts: Counts) -> Way
    ensures { IsWay counts result }
{
    if counts.strong > 1 {
        Way::Copy
    } else if counts.weak > 1 {
        Way::Move
    } else {
        Way::Stay
    }
}

/// Copies one element, if there are such places.
fn copy_one<E: Element>(memory: &mut [E], from: usize, to: usize)
    ensures { memory.new ≡ put_first (drop from memory.old) memory.old to }
{
    if let Some(x) = memory.get(from).copied() {
        write_at(memory, to, x);
    }
}

/// Copies `n` elements within the memory, first to last. One by one: the slice's own `copy_within`
/// asks that both parts lie inside it, and what a table says of a cell does not show that.
#[tactic(auto, using(crate::proofs::Making::copied_more), unfolding(crate::specs::Ends::copied))]
fn copy_within<E: Element>(memory: &mut [E], from: u32, to: u32, n: u16)
    ensures { memory.new ≡ copied memory.old from to n }
{
    for i in 0..usize::from(n) {
        copy_one(memory, from as usize + i, to as usize + i);
    }
}

impl<A: Allocator> Census<A> {
    /// Copies the elements of a cell at `p` to the block at `q`, where a cell of one `Rc` then stands.
    fn stand_copy<E: Element>(&mut self, memory: &mut [E], p: u32, q: u32, counts: Counts)
        ensures world { world A.meaning self.new ≡ with_row (world A.meaning self.old) q (shared counts.shape counts.size counts.standing) }
        ensures memory { memory.new ≡ copied memory.old p q counts.standing }
    {
        copy_within(memory, p, q, counts.standing);
        self.put(q, Cell::shared(counts.shape, counts.size, counts.standing));
    }

    /// Copies the cell at `p`, whose strong count then falls, and answers the place of the copy.
    fn copy_out<E: Element>(
        &mut self,
        memory: &mut [E],
        p: u32,
        counts: Counts,
    ) -> Result<u32, Decline>
        requires { counts ≡ at (world A.meaning self.old).rows p }
        ensures { Copies E.refs (world A.meaning self.old) memory.old p result (world A.meaning self.new) memory.new }
    {
        raise_all(&mut self.store.table, memory, p, counts.standing)?;
        // No `?`: the references are taken back first.
        let q = match self.allocate(counts.size) {
            Ok(q) => q,
            Err(why) => {
                let count = 4 * u32::from(counts.standing);
                lower_all(&mut self.store.table, memory, p, count);
                return Err(why);
            }
        };
        self.stand_copy(memory, p, q, counts);
        lower(&mut self.store.table, Reference::Strong(p));
        Ok(q)
    }

    /// Moves the elements of the cell at `p` to a new one, and answers its place. The old owner goes.
    fn move_out<E: Element>(
        &mut self,
        memory: &mut [E],
        p: u32,
        counts: Counts,
    ) -> Result<u32, Decline>
        requires { counts ≡ at (world A.meaning self.old).rows p }
        ensures { Moves (world A.meaning self.old) memory.old p result (world A.meaning self.new) memory.new }
    {
        let q = self.allocate(counts.size)?;
        self.stand_copy(memory, p, q, counts);
        let _ = self.store.retire(p as usize);
        Ok(q)
    }

    /// Makes the cell of `rc` its own: it copies the cell where another strong handle is out, and
    /// moves the elements to a new one where a weak handle is.
    pub fn make_mut<E: Element>(&mut self, memory: &mut [E], rc: &mut Rc) -> Result<(), Decline>
        ensures { MakeMut E.refs (world A.meaning self.old) memory.old rc.old result (world A.meaning self.new) memory.new rc.new }
    {
        let place = rc.ticket.place;
        let counts = self.admit(memory, Sort::Strong, rc.ticket)?.counts;
        match way_for(counts) {
            Way::Copy => rc.ticket.place = self.copy_out(memory, place, counts)?,
            Way::Move => rc.ticket.place = self.move_out(memory, place, counts)?,
            Way::Stay => {}
        }
        Ok(())
    }
}
