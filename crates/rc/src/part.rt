//! A part of a memory, wherever that ends.

ghost use Rattle.std.specs.Prelude.{◌≡◌, take, drop};

/// The `n` elements from `from` on, or as many as there are.
pub(crate) fn part<E>(all: &[E], from: usize, n: usize) -> &[E]
    ensures { result.now ≡ take n (drop from all.now) }
{
    let rest = all.get(from..).unwrap_or(&[]);
    rest.get(..n).unwrap_or(rest)
}
