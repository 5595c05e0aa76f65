//! What a command answers.

ghost use Rattle.std.specs.Prelude.{◌≡◌, Some};

/// A number, or none where no handle was given, and the place whose counts are shown beside it.
#[derive(Clone, Copy)]
pub(crate) struct Answer {
    pub value: Option<usize>,
    pub place: u32,
}

impl Answer {
    /// The place itself.
    pub(crate) fn at(place: u32) -> Answer
        ensures { result ≡ record { value = Some place; place = place } }
    {
        Answer {
            value: Some(place as usize),
            place,
        }
    }
}
