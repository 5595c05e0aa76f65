//! A census opened and closed.

ghost use Rattle.std.specs.Prelude.{◌≡◌};
ghost use Rattle.rc.specs.Worlds.{world, opened};

use crate::census::Census;
use blocks::Allocator;
use cells::Table;
use disposal::Store;

impl<A: Allocator> Census<A> {
    /// A census without cells, over the blocks of `alloc`.
    pub fn open(number: u32, alloc: A) -> Census<A>
        ensures { world A.meaning result ≡ opened number (A.meaning alloc) }
    {
        let table = Table::new();
        Census {
            number,
            store: Store { alloc, table },
        }
    }

    /// Ends the census, and gives its allocator back.
    pub fn close(self) -> A
        ensures { result ≡ self.store.alloc }
    {
        let Census { number: _, store } = self;
        let Store { alloc, table: _ } = store;
        alloc
    }
}
