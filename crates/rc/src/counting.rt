//! The counts of a cell. An empty `Weak` has none, so each count has a call for either handle.

ghost use Rattle.std.specs.Prelude.{◌≡◌};
ghost use Rattle.cells.specs.Rows.{at};
ghost use Rattle.rc.specs.Calls.{RcCount, WeakCount, others, others_alive};
ghost use Rattle.rc.specs.Worlds.{world};

use crate::census::Census;
use crate::decline::Decline;
use crate::handle::{Rc, Weak};
use blocks::Allocator;
use cells::Counts;
use element::{Element, Sort};

/// The weak handles that are not the owner's, while a strong one is left; 0 after that.
fn others_alive(counts: Counts) -> u16
    ensures { result ≡ others_alive counts }
{
    if counts.strong > 0 {
        counts.weak.saturating_sub(1)
    } else {
        0
    }
}

impl<A: Allocator> Census<A> {
    /// What the census has stored for a place, for programs that show it.
    pub fn stored(&self, place: u32) -> Counts
        ensures { result ≡ at (world A.meaning self.now).rows place }
    {
        self.store.table.get(place as usize).counts
    }

    /// How many strong handles the cell has.
    pub fn rc_strong_count<E: Element>(&self, memory: &[E], rc: &Rc) -> Result<u16, Decline>
        ensures { RcCount (λ k. k.strong) (world A.meaning self.now) memory.now rc.now.ticket result }
    {
        let cell = self.admit(memory, Sort::Strong, rc.ticket)?;
        Ok(cell.counts.strong)
    }

    /// How many weak handles the cell has; the owner's does not count.
    pub fn rc_weak_count<E: Element>(&self, memory: &[E], rc: &Rc) -> Result<u16, Decline>
        ensures { RcCount others (world A.meaning self.now) memory.now rc.now.ticket result }
    {
        let cell = self.admit(memory, Sort::Strong, rc.ticket)?;
        Ok(cell.counts.weak.saturating_sub(1))
    }

    /// How many strong handles the cell has; 0 for an empty `Weak`.
    pub fn weak_strong_count<E: Element>(&self, memory: &[E], weak: &Weak) -> Result<u16, Decline>
        ensures { WeakCount (λ k. k.strong) (world A.meaning self.now) memory.now weak.now.ticket result }
    {
        let cell = self.admit_weak(memory, weak.ticket)?;
        Ok(cell.map_or(0, |cell| cell.counts.strong))
    }

    /// How many weak handles the cell has while a strong one is left; 0 after that, and for an empty
    /// `Weak`.
    pub fn weak_weak_count<E: Element>(&self, memory: &[E], weak: &Weak) -> Result<u16, Decline>
        ensures { WeakCount others_alive (world A.meaning self.now) memory.now weak.now.ticket result }
    {
        let cell = self.admit_weak(memory, weak.ticket)?;
        Ok(cell.map_or(0, |cell| others_alive(cell.counts)))
    }
}
