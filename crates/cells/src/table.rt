//! The rows of a census by place.

ghost use Rattle.std.specs.Prelude.{◌≡◌, true, length, replicate, slice_set};
ghost use Rattle.cells.specs.Counts.{none};
ghost use Rattle.cells.specs.Rows.{at, link_at, at_rest, counts_of, links_of, standing_in, small};

use crate::row::{Link, Row};

/// A row for each place that a memory can have, and how many elements stand in all of them. An array:
/// every place has a row, and no call may allocate.
#[derive(Drop)]
pub struct Table {
    rows: [Row; 1024],
    standing: usize,
    ghost full: { length rows ≡ 1024 },
    ghost few: { small (counts_of rows) ≡ true },
    ghost sum: { standing ≡ standing_in (counts_of rows) },
}

#[tactic(auto, using(crate::proofs::Rows::row_steps), unfolding(crate::specs::Rows::counts_of, crate::specs::Rows::links_of))]
impl Table {
    /// A table without cells.
    pub fn new() -> Table
        ensures counts { counts_of result.rows ≡ replicate 1024 none }
        ensures links { links_of result.rows ≡ replicate 1024 at_rest }
    {
        Table {
            rows: [Row::FREE; 1024],
            standing: 0,
        }
    }

    /// The row at `p`; a free one past the end.
    pub fn get(&self, p: usize) -> Row
        ensures counts { result.counts ≡ at (counts_of self.now.rows) p }
        ensures link { result.link ≡ link_at (links_of self.now.rows) p }
    {
        self.rows.get(p).copied().unwrap_or(Row::FREE)
    }

    /// How many elements stand in all cells.
    pub fn standing(&self) -> usize
        ensures { result ≡ standing_in (counts_of self.now.rows) }
    {
        self.standing
    }

    /// Writes the row at `p`, if there is such a place.
    pub fn put(&mut self, p: usize, row: Row)
        ensures counts { counts_of self.new.rows ≡ slice_set (counts_of self.old.rows) p row.counts }
        ensures links { links_of self.new.rows ≡ slice_set (links_of self.old.rows) p row.link }
    {
        // By index: past the borrow of `get_mut` a proof knows only how many rows there are.
        if p < 1024 {
            let place = &mut self.rows[p];
            let old = place.counts.standing;
            *place = row;
            self.standing = self.standing - usize::from(old) + usize::from(row.counts.standing);
        }
    }

    /// No cell stands at `p` any more, and the link there stays.
    pub fn vacate(&mut self, p: usize)
        ensures counts { counts_of self.new.rows ≡ slice_set (counts_of self.old.rows) p none }
        ensures links { links_of self.new.rows ≡ links_of self.old.rows }
    {
        let link = self.get(p).link;
        self.put(p, Row { link, ..Row::FREE })
    }

    /// Moves the link of the row at `p`.
    pub fn relink(&mut self, p: usize, link: Option<Link>)
        ensures counts { counts_of self.new.rows ≡ counts_of self.old.rows }
        ensures links { links_of self.new.rows ≡ slice_set (links_of self.old.rows) p link }
    {
        // By index, as in `put`.
        if p < 1024 {
            let row = &mut self.rows[p];
            row.link = link;
        }
    }
}
