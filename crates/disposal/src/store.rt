//! The cells of a memory, with the allocator of their blocks.

use blocks::Allocator;
use cells::Table;

/// The counts of all cells, and the allocator that their blocks are from.
pub struct Store<A: Allocator> {
    pub alloc: A,
    pub table: Table,
}

/// What a release or an abandoning did.
#[derive(Clone, Copy, Default)]
pub struct Receipt {
    /// Elements written to the list.
    pub listed: usize,
    /// Cells disposed of.
    pub cells: usize,
    /// Blocks returned to the allocator.
    pub blocks: usize,
    /// References that no cell admitted.
    pub strays: usize,
}
