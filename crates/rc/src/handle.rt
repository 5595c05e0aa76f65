//! Handles: tokens of numbers that can be let go only once a call has spent them.
//!
//! A handle is neither `Copy` nor `Drop` at will: its `drop` asks that it is spent, and only the calls
//! of a census spend one. So no handle is lost and none is used twice.

ghost use Rattle.std.specs.Prelude.{◌≡◌, true, false, None};
ghost use Rattle.rc.specs.Handles.{SpentOn};
ghost use Rattle.rc.specs.Tickets.{place_of};

use crate::decline::{Decline, Refused};

/// The cell that a handle is of: the number of its census, and its place.
#[derive(Clone, Copy, PartialEq, Eq, Debug)]
pub struct Ticket {
    pub census: u32,
    pub place: u32,
}

/// A token of what a handle is of. The flag is a rule of the project: a token may be let go, but only
/// once it is spent.
pub struct Handle<T: Copy> {
    pub(crate) ticket: T,
    spent: bool,
}

/// A strong handle.
pub type Rc = Handle<Ticket>;

/// A weak handle, or an empty one that is of no cell.
pub type Weak = Handle<Option<Ticket>>;

impl<T: Copy> Drop for Handle<T> {
    fn drop(self)
        requires { self.spent ≡ true }
    {
        let Handle {
            ticket: _,
            spent: _,
        } = self;
    }
}

impl<T: Copy> Handle<T> {
    pub(crate) fn of(ticket: T) -> Handle<T>
        ensures ticket { result.ticket ≡ ticket }
        ensures unspent { result.spent ≡ false }
    {
        Handle {
            ticket,
            spent: false,
        }
    }

    /// Spends the handle on a call that went through; a declined one hands it back.
    pub(crate) fn spend_on<R>(
        mut self,
        outcome: Result<R, Decline>,
    ) -> Result<R, Refused<Handle<T>>>
        ensures { SpentOn self outcome result }
    {
        match outcome {
            Ok(answer) => {
                self.spent = true;
                Ok(answer)
            }
            Err(why) => Err(Refused { handle: self, why }),
        }
    }
}

impl Rc {
    /// The place of its cell.
    pub fn place(&self) -> u32
        ensures { result ≡ self.now.ticket.place }
    {
        self.ticket.place
    }
}

impl Weak {
    /// A weak handle that is of no cell.
    pub fn new() -> Weak
        ensures ticket { result.ticket ≡ None }
        ensures unspent { result.spent ≡ false }
    {
        Handle::of(None)
    }

    /// The place of its cell; none for an empty one.
    pub fn place(&self) -> Option<u32>
        ensures { result ≡ place_of self.now.ticket }
    {
        self.ticket.map(|ticket| ticket.place)
    }
}
