//! A change of the cell that a reference is of.

ghost use Rattle.cells.specs.Tables.{counts_in};
ghost use Rattle.references.specs.Changes.{ChangesBy, ChangesEachBy};

use cells::{Cell, Row, Table};
use element::{Reference, Sort};

/// Changes the cell that the reference is of. Where there is none, or none that can be changed so,
/// nothing happens.
pub(crate) fn change<F: FnOnce(Cell, Sort) -> Option<Cell>>(table: &mut Table, r: Reference, f: F)
    requires { F.IsAlwaysCallable f }
    ensures { ChangesBy (λ c s o. F.post f c s o) (counts_in table.old) r (counts_in table.new) }
{
    let Some((sort, place)) = r.handle() else {
        return;
    };
    let Some(cell) = Cell::of(table.get(place as usize)) else {
        return;
    };
    if let Some(changed) = f(cell, sort) {
        table.put(place as usize, Row::from(changed));
    }
}

/// Changes the cells that the references are of, one after the other.
pub(crate) fn change_all<F: Fn(Cell, Sort) -> Option<Cell>>(
    table: &mut Table,
    rs: &[Reference],
    f: F,
)
    requires { F.IsAlwaysCallable f }
    ensures { ChangesEachBy (λ c s o. F.post f c s o) (counts_in table.old) rs.now (counts_in table.new) }
{
    for r in rs {
        change(table, *r, &f);
    }
}
