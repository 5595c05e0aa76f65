//! References to cells, and the element types that hold them.

ghost use Rattle.std.specs.Prelude.{◌≡◌, ◌≤◌, List, length, slice_index_or};
ghost use Rattle.element.specs.Handles.{handle_of, refers_to};
ghost use Rattle.element.specs.declared.reference.Reference.{Reference};
ghost use Rattle.element.specs.declared.reference.Reference.TheVariants.{Empty};

/// The two sorts of handles.
#[derive(Clone, Copy, PartialEq, Eq, Debug)]
pub enum Sort {
    Strong,
    Weak,
}

/// A handle as an element holds it: strong or weak to the cell at a place, or empty. No `Option` of a
/// handle: these three names are what elements are written and read with.
#[derive(Clone, Copy, PartialEq, Eq, Debug, Default)]
pub enum Reference {
    #[default]
    Empty,
    Strong(u32),
    Weak(u32),
}

impl Reference {
    /// The sort and the place of the handle; none of an empty one.
    pub fn handle(self) -> Option<(Sort, u32)>
        ensures handle { result ≡ handle_of self }
        ensures back { refers_to result ≡ self }
    {
        match self {
            Reference::Empty => None,
            Reference::Strong(place) => Some((Sort::Strong, place)),
            Reference::Weak(place) => Some((Sort::Weak, place)),
        }
    }
}

/// Plain copyable data that says which references it holds: at most four, in order.
pub trait Element: Copy {
    ghost refs: { Self → List Reference };

    /// The reference at `i`, empty past the last.
    fn reference(&self, i: usize) -> Reference
        ensures { result ≡ slice_index_or (refs self.now) i Empty };

    ghost few: { (x : Self) → length (refs x) ≤ 4 };
}
