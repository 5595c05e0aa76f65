//! A drive opened and closed.

ghost use Rattle.drive.specs.Runs.{Blank, Opened, state_of};

use crate::drive::{Drive, PLACES};
use crate::loose::Loose;
use blocks::FirstFit;
use element::Note;

/// The number of the only census of a drive.
const NUMBER: u32 = 0;

/// Notes with the number 0.
fn blank() -> [Note; PLACES]
    ensures { Blank result }
{
    [Note::new(0); PLACES]
}

impl Drive {
    /// A drive without cells.
    pub fn open() -> Drive
        ensures { Opened (state_of result) }
    {
        Drive {
            loose: Loose::open(NUMBER, FirstFit::open(PLACES)),
            memory: blank(),
            list: blank(),
        }
    }

    /// Ends the drive, with the handles that are still loose.
    pub fn close(self) {
        let Drive {
            loose,
            memory: _,
            list: _,
        } = self;
        let Loose { census } = loose;
        census.close();
    }
}
