//! The references that elements name.

ghost use Rattle.std.specs.Prelude.{◌≡◌};
ghost use Rattle.cells.specs.Tables.{counts_in};
ghost use Rattle.references.specs.References.{padded, named, loose, lacking, some_lacking};

use cells::{Cell, Table};
use element::{Element, Reference};
use std::array;

/// The references of an element, the missing ones empty.
pub fn references_of<E: Element>(x: &E) -> [Reference; 4]
    ensures { result ≡ padded (E.refs x.now) }
{
    array::from_fn(|i| x.reference(i))
}

/// How often the list names the reference.
fn times(rs: &[Reference], r: Reference) -> usize
    ensures { result ≡ named r rs.now }
{
    rs.iter().filter(|s| r == **s).count()
}

/// How many loose handles the reference could be.
fn spare(table: &Table, r: Reference) -> u16
    ensures { result ≡ loose (counts_in table.now) r }
{
    let Some((sort, place)) = r.handle() else {
        return 0;
    };
    Cell::of(table.get(place as usize)).map_or(0, |cell| cell.counts.loose(sort))
}

/// Whether the list names the reference, not an empty one, more often than loose ones stand.
fn lacks(table: &Table, rs: &[Reference], r: Reference) -> bool
    ensures { result ≡ lacking (counts_in table.now) rs.now r }
{
    r != Reference::Empty && usize::from(spare(table, r)) < times(rs, r)
}

/// Whether some reference of the list is named more often than loose ones stand.
pub fn lacks_some(table: &Table, rs: &[Reference]) -> bool
    ensures { result ≡ some_lacking (counts_in table.now) rs.now rs.now }
{
    rs.iter().any(|r| lacks(table, rs, *r))
}
