//! What holds of every disposal, and of every release.

ghost use Rattle.std.specs.Prelude.{ℕ};
ghost use Rattle.element.specs.declared.reference.Reference.{Reference};
ghost use Rattle.disposal.specs.Disposal.{Disposes, Release, OneOutcome};
ghost use Rattle.disposal.specs.Laws.{ListsAtMost, OnceEach};

use element::Element;

/// The disposal of any cell and the release of any reference end, and in one way only.
pub fn disposal_stands<E: Element>(memory: &[E]) -> u8
    ensures disposes { (p : ℕ) → OneOutcome (Disposes E.refs memory.now p) }
    ensures releases { (r : Reference) → OneOutcome (Release E.refs memory.now r) }
{
    0
}

/// From any world, a disposal or a release lists at most the elements that stood in cells, and
/// disposes of each cell at most once.
pub fn disposal_is_bounded<E: Element>(memory: &[E]) -> u8
    ensures listed { ListsAtMost E.refs memory.now }
    ensures once { OnceEach E.refs memory.now }
{
    0
}
