//! What the table stores for a place: plain data, with no invariant.

/// What stands at a place.
#[derive(Clone, Copy, PartialEq, Eq, Debug)]
pub enum State {
    /// No cell.
    Free,
    /// A cell of `Rc`s; its owner stands while the strong count is above 0.
    Counted,
    /// A cell of a `UniqueRc`.
    Unique,
    /// A cell begun by `new_cyclic`, still without a value.
    Cyclic,
    /// A slice begun by `from_iter_exact`.
    Building,
    /// A cell whose elements are on their way out.
    Disposing,
}

/// Whether a cell was made for one element or for a slice of them.
#[derive(Clone, Copy, PartialEq, Eq, Debug)]
pub enum Shape {
    Single,
    Slice,
}

/// The state and the counts of a cell.
#[derive(Clone, Copy)]
pub struct Counts {
    pub state: State,
    pub shape: Shape,
    pub strong: u16,
    pub weak: u16,
    /// How many of the strong handles are loose.
    pub loose_strong: u16,
    /// How many of the weak handles are loose.
    pub loose_weak: u16,
    /// How many places its block has.
    pub size: u16,
    /// How many elements stand in it.
    pub standing: u16,
}

/// Where the disposal of a cell has come to.
#[derive(Clone, Copy)]
pub struct Link {
    /// The cell under disposal that this one was released from, if any.
    pub back: Option<u16>,
    /// The place of the next element to list.
    pub next: u32,
    /// The place after the last element.
    pub end: u32,
    /// The next reference to release of the element listed last; 4 past the last one.
    pub reference: u8,
}

/// A place of the table.
#[derive(Clone, Copy)]
pub struct Row {
    pub counts: Counts,
    /// Where its disposal has come to; none at rest.
    pub link: Option<Link>,
}

impl Row {
    /// What stands where no cell does. No `Default`: a derived one tells a proof its fields one by one, and
    /// the table needs the row whole.
    pub(crate) const FREE: Row = Row {
        counts: Counts {
            state: State::Free,
            shape: Shape::Single,
            strong: 0,
            weak: 0,
            loose_strong: 0,
            loose_weak: 0,
            size: 0,
            standing: 0,
        },
        link: None,
    };
}
