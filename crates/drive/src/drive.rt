//! The census that a script works, with its memory.

use crate::loose::Loose;
use blocks::FirstFit;
use element::Note;

/// How many places the memory has.
pub(crate) const PLACES: usize = 8;

/// A census over eight places, whose handles are all loose between lines. The memory and the list are
/// arrays: every place has a note, and no call may allocate.
pub struct Drive {
    pub(crate) loose: Loose<FirstFit>,
    pub(crate) memory: [Note; PLACES],
    pub(crate) list: [Note; PLACES],
}
