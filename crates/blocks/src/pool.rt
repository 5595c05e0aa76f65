//! Slots of one size.

ghost use Rattle.std.specs.Prelude.{◌≡◌, ℕ, ◌+◌, ◌*◌, ◌/◌, ◌<◌, ◌≤◌, min, max, [], slice_index};
ghost use Rattle.blocks.specs.Blocks.{total};
ghost use Rattle.blocks.specs.Meaning.{Allocates};
ghost use Rattle.blocks.specs.Slots.{slots_out, LowestSlot, LowestFree, SlotOf};
ghost use Rattle.blocks.specs.Fits.{pool_one, pool_fewer};
ghost use Rattle.blocks.specs.Soundness.{pool_slots_apart};
ghost use Rattle.std.proofs.Common.{rules};

use crate::allocator::Allocator;
use crate::block::Decline;
use crate::slots::Slots;

/// An allocator that hands out slots of `unit` places each, the lowest first.
#[derive(Drop)]
pub struct Pool {
    extent: usize,
    unit: usize,
    slots: Slots,
    used: usize,
    ghost sizes: { (1 ≤ unit) × (unit ≤ extent) × (extent ≤ 1024) },
    ghost held: { (k : ℕ) → slice_index slots.lens k ≤ unit },
    ghost inside: { (k : ℕ) → 0 < slice_index slots.lens k → k * unit + unit ≤ extent },
    ghost counted: { used ≡ total (slots_out unit 0 slots.lens) },
}

impl Pool {
    /// Makes a pool of `extent` places, 1 to 1024, in slots of `unit` places, 1 to the extent, all free.
    pub fn open(extent: usize, unit: usize) -> Pool
        ensures extent { result.extent ≡ max 1 (min extent 1024) }
        ensures unit { result.unit ≡ max 1 (min unit result.extent) }
        ensures out { slots_out result.unit 0 result.slots.lens ≡ [] }
    {
        let extent = extent.clamp(1, 1024);
        Pool {
            extent,
            unit: unit.clamp(1, extent),
            slots: Slots::new(),
            used: 0,
        }
    }

    // The lowest free slot.
    fn lowest_free(&self) -> Option<usize>
        ensures { LowestFree
            (self.now.extent / self.now.unit)
            self.now.slots.lens result }
    {
        self.slots.lowest_free(self.extent / self.unit)
    }

    // The slot of a block that is out.
    fn slot_of(&self, offset: usize, n: usize) -> Option<usize>
        ensures { SlotOf self.now.unit self.now.slots.lens offset n result }
    {
        // Named before the test: with `%` or a call inside it, or with `then_some`, the `None` needs a longer proof.
        let k = offset / self.unit;
        let past = offset % self.unit;
        let held = self.slots.get(k) as usize;
        if n > 0 && past == 0 && held == n {
            Some(k)
        } else {
            None
        }
    }
}

impl Allocator for Pool {
    ghost use Rattle.blocks.specs.Pool.{meaning_of};

    ghost meaning = { meaning_of };

    ghost small = { Prim.search rules };

    ghost sound = { λ a. pool_slots_apart a.unit a.extent a.slots.lens a.held a.inside };

    ghost lengths = { Prim.search rules };

    ghost one = { λ a. pool_one a.extent a.unit a.sizes.0 a.sizes.1 };

    ghost fewer = { λ a b bs n h. pool_fewer a.extent a.unit b bs n h };

    fn extent(&self) -> usize {
        self.extent
    }

    fn used(&self) -> usize {
        self.used
    }

    /// Takes the lowest free slot.
    fn allocate(&mut self, n: usize) -> Result<usize, Decline>
        ensures hands_out { Allocates meaning_of self.old n result self.new }
        ensures lowest { LowestSlot
            self.old.unit
            (slots_out self.old.unit 0 self.old.slots.lens) result }
    {
        if n == 0 || n > self.unit {
            return Err(Decline::Unfit);
        }
        let k = self.lowest_free().ok_or(Decline::Unfit)?;
        self.slots.fill(k, n as u16);
        self.used += n;
        Ok(k * self.unit)
    }

    fn deallocate(&mut self, offset: usize, n: usize) -> Result<(), Decline> {
        let k = self.slot_of(offset, n).ok_or(Decline::NotOut)?;
        self.slots.free(k);
        self.used -= n;
        Ok(())
    }
}
