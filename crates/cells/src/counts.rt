//! The counts of a cell by the sort of its handles.

ghost use Rattle.std.specs.Prelude.{◌≡◌};
ghost use Rattle.cells.specs.Counts.{owner, last_owner, handles, loose, with_handles, with_loose};

use crate::row::{Counts, State};
use element::Sort;

impl Counts {
    /// How many handles of the sort there are; an owner has one of the weak ones.
    pub fn handles(&self, sort: Sort) -> u16
        ensures { result ≡ handles sort self.now }
    {
        match sort {
            Sort::Strong => self.strong,
            Sort::Weak => self.weak,
        }
    }

    /// How many handles of the sort are loose.
    pub fn loose(&self, sort: Sort) -> u16
        ensures { result ≡ loose sort self.now }
    {
        match sort {
            Sort::Strong => self.loose_strong,
            Sort::Weak => self.loose_weak,
        }
    }

    /// How many of the weak handles are the owner's: 1 while an owner stands.
    pub(crate) fn owner(&self) -> u16
        ensures { result ≡ owner self.now }
    {
        match self.state {
            State::Free => 0,
            State::Counted => u16::from(self.strong > 0),
            State::Unique | State::Cyclic | State::Building | State::Disposing => 1,
        }
    }

    /// Whether an owner stands, with one strong handle at most, which is not loose.
    pub(crate) fn has_last_owner(&self) -> bool
        ensures { result ≡ last_owner self.now }
    {
        self.owner() == 1 && self.strong <= 1 && self.loose_strong == 0
    }

    /// The counts with `n` handles of the sort.
    pub(crate) fn with_handles(self, sort: Sort, n: u16) -> Counts
        ensures { result ≡ with_handles sort self n }
    {
        match sort {
            Sort::Strong => Counts { strong: n, ..self },
            Sort::Weak => Counts { weak: n, ..self },
        }
    }

    /// The counts with `n` loose handles of the sort.
    pub(crate) fn with_loose(self, sort: Sort, n: u16) -> Counts
        ensures { result ≡ with_loose sort self n }
    {
        match sort {
            Sort::Strong => Counts {
                loose_strong: n,
                ..self
            },
            Sort::Weak => Counts {
                loose_weak: n,
                ..self
            },
        }
    }
}
