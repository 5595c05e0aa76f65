//! The gaps between blocks.

ghost use Rattle.std.specs.Prelude.{◌≡◌, ◌+◌, ◌<◌, ◌≤◌, nat_le};
ghost use Rattle.blocks.specs.Blocks.{Apart};
ghost use Rattle.blocks.specs.Gaps.{GapIn};

use crate::block::Block;

/// A gap: its offset, and the line at which a block there goes.
#[derive(Clone, Copy)]
pub(crate) struct Gap {
    pub(crate) offset: usize,
    pub(crate) line: usize,
}

// Whether `n` places lie between two offsets.
fn has_room(n: usize, from: usize, to: usize) -> bool
    requires { from ≤ to }
    ensures { result ≡ nat_le (from + n) to }
{
    n <= to - from
}

/// The lowest gap of `n` places.
pub(crate) fn lowest_gap(blocks: &[Block], extent: usize, n: usize) -> Option<Gap>
    requires { (0 < n) × (extent ≤ 1024) × Apart extent 0 blocks.now }
    ensures { GapIn extent n blocks.now result }
{
    // The end of the last block goes along, and the first gap ends the search: no chain says that shorter.
    let mut from = 0;
    for (line, taken) in blocks.iter().enumerate() {
        if has_room(n, from, taken.offset) {
            return Some(Gap { offset: from, line });
        }
        from = taken.offset + taken.len;
    }
    if has_room(n, from, extent) {
        Some(Gap {
            offset: from,
            line: blocks.len(),
        })
    } else {
        None
    }
}
