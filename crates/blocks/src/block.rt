//! Blocks, and what an allocator answers where it cannot serve.

/// A block: the places from `offset` on, `len` of them.
#[derive(Clone, Copy, PartialEq, Eq, Default, Debug)]
pub struct Block {
    pub offset: usize,
    pub len: usize,
}

/// Why an allocator declines.
#[derive(Clone, Copy, PartialEq, Eq, Debug)]
pub enum Decline {
    /// The length does not fit.
    Unfit,
    /// The block to take back is not out.
    NotOut,
}
