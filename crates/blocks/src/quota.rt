//! A limit over another allocator.

ghost use Rattle.std.specs.Prelude.{◌≡◌, ◌+◌, ◌≤◌, max, nat_le};
ghost use Rattle.blocks.specs.Blocks.{total};
ghost use Rattle.blocks.specs.Kinds.{quota_over};
ghost use Rattle.blocks.specs.Fits.{quota_fewer};
ghost use Rattle.std.proofs.Common.{rules};

use crate::allocator::Allocator;
use crate::block::Decline;

/// An allocator that serves from another one, while no more places than its limit are out.
#[derive(Drop)]
pub struct Quota<A> {
    below: A,
    limit: usize,
    ghost some: { 1 ≤ limit },
}

impl<A: Allocator> Quota<A> {
    /// Puts a limit, at least 1, over an allocator.
    pub fn open(below: A, limit: usize) -> Quota<A>
        ensures below { result.below ≡ below }
        ensures limit { result.limit ≡ max 1 limit }
    {
        Quota {
            below,
            limit: limit.max(1),
        }
    }

    /// Gives the allocator below back.
    pub fn close(self) -> A
        ensures { result ≡ self.below }
    {
        let Quota { below, limit: _ } = self;
        below
    }

    // Whether `n` places more keep within the limit.
    fn has_room(&self, n: usize) -> bool
        ensures { result ≡ nat_le
            (total (A.meaning self.now.below).out + n)
            self.now.limit }
    {
        n <= self.limit && self.below.used() <= self.limit - n
    }
}

impl<A: Allocator> Allocator for Quota<A> {
    ghost meaning = { λ s. quota_over s.limit (A.meaning s.below) };

    ghost small = { Prim.search rules };

    ghost sound = { Prim.search rules };

    ghost lengths = { Prim.search rules };

    ghost one = { Prim.search rules };

    ghost fewer = { λ a b bs n h.
        quota_fewer a.limit (A.meaning a.below).fits b bs n
        (A.Allocator.fewer a.below b bs n) h };

    fn extent(&self) -> usize {
        self.below.extent()
    }

    fn used(&self) -> usize {
        self.below.used()
    }

    fn allocate(&mut self, n: usize) -> Result<usize, Decline> {
        if !self.has_room(n) {
            return Err(Decline::Unfit);
        }
        self.below.allocate(n)
    }

    fn deallocate(&mut self, offset: usize, n: usize) -> Result<(), Decline> {
        self.below.deallocate(offset, n)
    }
}
