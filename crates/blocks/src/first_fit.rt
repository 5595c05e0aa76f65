//! The lowest gap first.

ghost use Rattle.std.specs.Prelude.{◌≡◌, ◌≤◌, min, max, []};
ghost use Rattle.blocks.specs.Blocks.{Apart, total};
ghost use Rattle.blocks.specs.Gaps.{GapFor, LowestGap};
ghost use Rattle.blocks.specs.Lined.{LineOf};
ghost use Rattle.blocks.specs.Meaning.{Allocates};
ghost use Rattle.blocks.specs.Fits.{first_lengths, first_one, first_fewer};
ghost use Rattle.blocks.specs.Soundness.{apart_prop};

use crate::allocator::Allocator;
use crate::block::{Block, Decline};
use crate::gaps::{Gap, lowest_gap};
use arrayvec::ArrayVec;

const LINES: usize = 512;

/// An allocator that hands out the lowest gap, and keeps a line for each of up to 512 blocks out.
#[derive(Drop)]
pub struct FirstFit {
    extent: usize,
    table: ArrayVec<Block, LINES>,
    used: usize,
    ghost size: { (1 ≤ extent) × (extent ≤ 1024) },
    ghost apart: { Apart extent 0 table.items } by { apart_prop extent 0 table.items },
    ghost counted: { used ≡ total table.items },
}

impl FirstFit {
    /// Makes an allocator of `extent` places, 1 to 1024, with no block out.
    pub fn open(extent: usize) -> FirstFit
        ensures extent { result.extent ≡ max 1 (min extent 1024) }
        ensures out { result.table.items ≡ [] }
    {
        FirstFit {
            extent: extent.clamp(1, 1024),
            table: ArrayVec::new(),
            used: 0,
        }
    }

    // The lowest gap of `n` places, where they fit.
    fn gap_for(&self, n: usize) -> Option<Gap>
        ensures { GapFor self.now.extent n self.now.table.items result }
    {
        if n == 0 || self.table.is_full() {
            return None;
        }
        lowest_gap(&self.table, self.extent, n)
    }

    // The line of a block that is out.
    fn line_of(&self, x: Block) -> Option<usize>
        ensures { LineOf x self.now.table.items result }
    {
        self.table.iter().position(|taken| x == *taken)
    }
}

impl Allocator for FirstFit {
    ghost use Rattle.blocks.specs.FirstFit.{meaning_of};

    ghost meaning = { meaning_of };

    ghost small = { λ a. a.size };

    ghost sound = { λ a. a.apart };

    ghost lengths = { λ a bs n h. first_lengths a.extent bs n h };

    ghost one = { λ a. first_one a.extent a.size.0 };

    ghost fewer = { λ a b bs n h. first_fewer a.extent b bs n h };

    fn extent(&self) -> usize {
        self.extent
    }

    fn used(&self) -> usize {
        self.used
    }

    /// Takes the lowest gap.
    #[tactic(auto, using(crate::specs::Edits::total_insert, crate::specs::Edits::total_le, crate::specs::Fits::has_gap_at))]
    fn allocate(&mut self, n: usize) -> Result<usize, Decline>
        ensures hands_out { Allocates meaning_of self.old n result self.new }
        ensures lowest { LowestGap n self.old.table.items result }
    {
        let gap = self.gap_for(n).ok_or(Decline::Unfit)?;
        let block = Block {
            offset: gap.offset,
            len: n,
        };
        self.table.insert(gap.line, block);
        self.used += n;
        Ok(gap.offset)
    }

    #[tactic(auto, using(crate::specs::Edits::total_remove, crate::proofs::Placed::apart_removed, crate::proofs::Placed::len_le_total))]
    fn deallocate(&mut self, offset: usize, n: usize) -> Result<(), Decline> {
        let block = Block { offset, len: n };
        let line = self.line_of(block).ok_or(Decline::NotOut)?;
        self.table.remove(line);
        self.used -= n;
        Ok(())
    }
}
