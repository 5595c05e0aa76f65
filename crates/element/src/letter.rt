//! The letter: one byte.

ghost use Rattle.std.specs.Prelude.{[]};
ghost use Rattle.std.proofs.Common.{rules};

use crate::reference::{Element, Reference};

/// One byte of a legend. It holds no reference.
#[derive(Clone, Copy, PartialEq, Eq, Debug)]
pub struct Letter(pub u8);

impl Element for Letter {
    ghost refs = { λ _. [] };

    ghost few = { Prim.search rules };

    fn reference(&self, _i: usize) -> Reference {
        Reference::Empty
    }
}
