//! The elements of a memory by place, where there may be none.

ghost use Rattle.std.specs.Prelude.{◌≡◌, [], map, slice_index_or, slice_set};
ghost use Rattle.element.specs.declared.reference.Reference.TheVariants.{Empty};

use element::{Element, Reference};

/// Reference `i` of the element at `k`; empty past the end.
pub fn reference_at<E: Element>(memory: &[E], k: usize, i: usize) -> Reference
    ensures { result ≡ slice_index_or (slice_index_or (map E.refs memory.now) k []) i Empty }
{
    memory.get(k).map_or(Reference::Empty, |x| x.reference(i))
}

/// Writes `x` at `k`, if there is such a place.
pub fn write_at<E: Element>(memory: &mut [E], k: usize, x: E)
    ensures { memory.new ≡ slice_set memory.old k x }
{
    // Not by `get_mut`: past its borrow a proof knows only the slice's length.
    if k < memory.len() {
        memory[k] = x;
    }
}
