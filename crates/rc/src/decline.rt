//! Declines, and the handle that a declined call hands back.

ghost use Rattle.std.specs.Prelude.{◌≡◌};
ghost use Rattle.rc.specs.declared.decline.Decline.TheVariants.{Allocator, Count};

use references::CountFull;

/// Why a call is declined. The checks run in this order, and the first that applies decides.
#[derive(Clone, Copy, PartialEq, Eq, Debug)]
pub enum Decline {
    /// 1: the memory's length is not the extent.
    Memory,
    /// 2: the list is shorter than the elements standing in all cells.
    List,
    /// 3: the handle is of another census, or no cell admits it.
    Handle,
    /// 4: there is no such loose handle.
    Loose,
    /// 5: the cell was made for a slice.
    Slice,
    /// 6: the index is past the end.
    Index,
    /// 7: the element names a reference more often than loose ones stand.
    References,
    /// 8: another handle is out.
    Shared,
    /// 9: a count would pass 65,535.
    Count,
    /// 10 and 11: the allocator declines.
    Allocator(blocks::Decline),
}

impl From<blocks::Decline> for Decline {
    ghost from_gives = { λ why d. d ≡ Allocator why };

    fn from(why: blocks::Decline) -> Decline {
        Decline::Allocator(why)
    }
}

impl From<CountFull> for Decline {
    ghost from_gives = { λ _ d. d ≡ Count };

    fn from(_full: CountFull) -> Decline {
        Decline::Count
    }
}

/// A handle that comes back from a declined call, and why.
pub struct Refused<H> {
    pub handle: H,
    pub why: Decline,
}
