//! Allocators of blocks of places, each known to its callers by its meaning alone.

#![tactic(auto)]

mod allocator;
mod block;
mod first_fit;
mod gaps;
mod numbers;
mod pool;
mod quota;
mod slots;
#[cfg(test)]
mod tests;

pub use allocator::Allocator;
pub use block::{Block, Decline};
pub use first_fit::FirstFit;
pub use pool::Pool;
pub use quota::Quota;
