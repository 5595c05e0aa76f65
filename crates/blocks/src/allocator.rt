//! The interface that every allocator stands behind.

ghost use Rattle.std.specs.Prelude.{◌≡◌, ℕ, ◌≤◌, true, List, []};
ghost use Rattle.blocks.specs.declared.block.Block.{Block};
ghost use Rattle.blocks.specs.Blocks.{Apart, total, remove, block};
ghost use Rattle.blocks.specs.Meaning.{Meaning, Allocates, Deallocates};

use crate::block::Decline;

/// Hands out blocks of places and takes them back.
///
/// Its meaning is an extent, a rule that says which lengths fit beside which blocks, and the blocks
/// out. No call alters the extent or the rule, and a call that declines alters nothing.
pub trait Allocator {
    ghost meaning: { Self → Meaning };

    /// How many places there are.
    fn extent(&self) -> usize
        ensures { result ≡ (meaning self.now).extent };

    /// The sum of the lengths of the blocks out.
    fn used(&self) -> usize
        ensures { result ≡ total (meaning self.now).out };

    /// Hands out a block of `n` places exactly when `n` fits, and answers its offset.
    fn allocate(&mut self, n: usize) -> Result<usize, Decline>
        ensures { Allocates meaning self.old n result self.new };

    /// Takes back a block that is out.
    fn deallocate(&mut self, offset: usize, n: usize) -> Result<(), Decline>
        ensures { Deallocates meaning self.old (block offset n) result self.new };

    ghost small: { (a : Self) → (1 ≤ (meaning a).extent) × ((meaning a).extent ≤ 1024) };

    ghost sound: { (a : Self) → Apart (meaning a).extent 0 (meaning a).out };

    ghost lengths: { (a : Self) (bs : List Block) (n : ℕ) → (meaning a).fits bs n ≡ true → (1 ≤ n) × (n ≤ (meaning a).extent) };

    ghost one: { (a : Self) → (meaning a).fits [] 1 ≡ true };

    ghost fewer: { (a : Self) (b : Block) (bs : List Block) (n : ℕ) → (meaning a).fits bs n ≡ true → (meaning a).fits (remove b bs) n ≡ true };
}
