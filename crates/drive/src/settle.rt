//! Handles made loose that the census admits, so that it cannot hand them back.

ghost use Rattle.std.specs.Prelude.{◌≡◌};
ghost use Rattle.rc.specs.Admits.{AdmitsRc, AdmitsWeak};
ghost use Rattle.rc.specs.Calls.{loosened_strong, loosened_weak};
ghost use Rattle.rc.specs.Tickets.{place_of};
ghost use Rattle.rc.specs.Worlds.{world};

use blocks::Allocator;
use element::Element;
use rc::{Census, Rc, Weak};

/// Makes the strong handle loose, and answers its place.
pub(crate) fn settle<A: Allocator, E: Element>(census: &mut Census<A>, memory: &[E], rc: Rc) -> u32
    requires { AdmitsRc (world A.meaning census.old) memory.now rc.ticket }
    ensures place { result ≡ rc.ticket.place }
    ensures after { world A.meaning census.new ≡ loosened_strong (world A.meaning census.old) rc.ticket.place }
{
    census.rc_into_raw(memory, rc).unwrap()
}

/// Makes the weak handle loose. One function with `settle` it cannot be: the calls of the census answer
/// different types.
pub(crate) fn settle_weak<A: Allocator, E: Element>(
    census: &mut Census<A>,
    memory: &[E],
    weak: Weak,
)
    requires { AdmitsWeak (world A.meaning census.old) memory.now weak.ticket }
    ensures { world A.meaning census.new ≡ loosened_weak (world A.meaning census.old) (place_of weak.ticket) }
{
    census.weak_into_raw(memory, weak).unwrap();
}
