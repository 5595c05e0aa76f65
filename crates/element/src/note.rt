//! The note: a number and up to four references.

ghost use Rattle.std.specs.Prelude.{◌≡◌, length, replicate};
ghost use Rattle.element.specs.declared.reference.Reference.TheVariants.{Empty};
ghost use Rattle.std.proofs.Common.{rules, arith};

use crate::reference::{Element, Reference};

/// A number with up to four references, the unused ones empty.
#[derive(Clone, Copy, PartialEq, Eq, Debug)]
pub struct Note {
    pub number: u32,
    references: [Reference; 4],
    ghost four: { length references ≡ 4 },
}

impl Note {
    /// A note that refers to nothing.
    pub fn new(number: u32) -> Note
        ensures number { result.number ≡ number }
        ensures references { result.references ≡ replicate 4 Empty }
    {
        Note::with_references(number, [Reference::Empty; 4])
    }

    /// A note with these references, in order.
    pub fn with_references(number: u32, references: [Reference; 4]) -> Note
        ensures number { result.number ≡ number }
        ensures references { result.references ≡ references }
    {
        Note { number, references }
    }
}

impl Element for Note {
    ghost refs = { λ n. n.references };

    ghost few = { first_of (Prim.search rules, Prim.grind (arith, Self.row.coded.inj)) };

    fn reference(&self, i: usize) -> Reference {
        self.references.get(i).copied().unwrap_or_default()
    }
}
