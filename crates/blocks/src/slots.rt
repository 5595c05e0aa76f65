//! The slots of a pool.

ghost use Rattle.std.specs.Prelude.{◌≡◌, ℕ, ◌<◌, ◌≤◌, [], length, slice_index, slice_set};
ghost use Rattle.blocks.specs.Slots.{slots_out, LowestFree};

const SLOTS: usize = 1024;

/// For each slot the length of the block in it, and 0 where the slot is free.
#[derive(Drop)]
pub(crate) struct Slots {
    // No block has length 0: an `Option` would say free in two ways, `None` and `Some(0)`. An array:
    // every slot has one, and no call may allocate.
    lens: [u16; SLOTS],
    ghost full: { length lens ≡ 1024 },
}

impl Slots {
    /// Slots that are all free.
    pub(crate) fn new() -> Slots
        ensures free { (k : ℕ) → slice_index result.lens k ≡ 0 }
        ensures out { (unit at : ℕ) → slots_out unit at result.lens ≡ [] }
    {
        Slots { lens: [0; SLOTS] }
    }

    /// The length in slot `k`, and 0 past the last slot.
    pub(crate) fn get(&self, k: usize) -> u16
        ensures { result ≡ slice_index self.now.lens k }
    {
        self.lens.get(k).copied().unwrap_or(0)
    }

    /// The lowest free one of the first `count` slots. Over the part as a slice: a bound tested at each
    /// slot takes half as long again where the pool is nearly full.
    pub(crate) fn lowest_free(&self, count: usize) -> Option<usize>
        requires { count ≤ 1024 }
        ensures { LowestFree count self.now.lens result }
    {
        self.lens[..count].iter().position(|&len| len == 0)
    }

    /// Puts a block of `n` places into slot `k`.
    pub(crate) fn fill(&mut self, k: usize, n: u16)
        requires { k < 1024 }
        ensures { self.new.lens ≡ slice_set self.old.lens k n }
    {
        self.lens[k] = n;
    }

    /// Frees slot `k`.
    pub(crate) fn free(&mut self, k: usize)
        requires { k < 1024 }
        ensures { self.new.lens ≡ slice_set self.old.lens k 0 }
    {
        self.lens[k] = 0;
    }
}
