//! References counted once more, where their elements are copied, and taken back.

ghost use Rattle.std.specs.Prelude.{◌≡◌, ◌*◌, false, List};
ghost use Rattle.cells.specs.Tables.{counts_in};
ghost use Rattle.cells.specs.declared.row.Counts.{Counts};
ghost use Rattle.references.specs.References.{Raises, RaisesAll, lowered, nth, raised_upto, overflows};

use crate::changed::change;
use cells::{Cell, Row, Table};
use disposal::reference_at;
use element::{Element, Reference};

/// A count that one more handle would pass.
#[derive(Clone, Copy, PartialEq, Eq, Debug)]
pub struct CountFull;

/// Counts a copied reference, if its count is not full. One that no cell admits is passed over.
fn raise(table: &mut Table, r: Reference) -> Result<(), CountFull>
    ensures { Raises (counts_in table.old) r result (counts_in table.new) }
{
    let Some((sort, place)) = r.handle() else {
        return Ok(());
    };
    let Some(cell) = Cell::of(table.get(place as usize)) else {
        return Ok(());
    };
    if cell.admits(sort) {
        let cell = cell.inc(sort).ok_or(CountFull)?;
        table.put(place as usize, Row::from(cell));
    }
    Ok(())
}

/// Takes a copied reference back.
pub fn lower(table: &mut Table, r: Reference)
    ensures { counts_in table.new ≡ lowered (counts_in table.old) r }
{
    change(table, r, |cell, sort| cell.dec(sort));
}

/// Reference `j` of the elements from `from` on, four to an element.
fn nth<E: Element>(memory: &[E], from: u32, j: u32) -> Reference
    ensures { result ≡ nth E.refs memory.now from j }
{
    reference_at(memory, from as usize + (j / 4) as usize, (j % 4) as usize)
}

/// Takes the first `count` references of the elements from `from` on back, the last one first. By
/// number, as they were counted.
pub fn lower_all<E: Element>(table: &mut Table, memory: &[E], from: u32, count: u32)
    ensures { (rows : List Counts) → overflows (nth E.refs memory.now from) count rows ≡ false → counts_in table.old ≡ raised_upto (nth E.refs memory.now from) count rows → counts_in table.new ≡ rows }
{
    for j in (0..count).rev() {
        lower(table, nth(memory, from, j));
    }
}

/// Counts the references of the `n` elements from `from` on once more; where some count would be
/// passed, nothing changes.
#[tactic(auto, using(crate::proofs::Copying::upto_steps))]
pub fn raise_all<E: Element>(
    table: &mut Table,
    memory: &[E],
    from: u32,
    n: u16,
) -> Result<(), CountFull>
    ensures { RaisesAll (nth E.refs memory.now from) (4 * n) (counts_in table.old) result (counts_in table.new) }
{
    // By number, so that those counted before one that is full can be taken back.
    for j in 0..4 * u32::from(n) {
        if let Err(full) = raise(table, nth(memory, from, j)) {
            lower_all(table, memory, from, j);
            return Err(full);
        }
    }
    Ok(())
}
