//! References taken from the loose handles, and made loose again.

ghost use Rattle.std.specs.Prelude.{◌≡◌};
ghost use Rattle.cells.specs.Tables.{counts_in};
ghost use Rattle.references.specs.References.{each, held, loosened};

use crate::changed::change_all;
use cells::Table;
use element::Reference;

/// The loose handles that the references are of go into an element.
pub fn hold_all(table: &mut Table, rs: &[Reference])
    ensures { counts_in table.new ≡ each held (counts_in table.old) rs.now }
{
    change_all(table, rs, |cell, sort| cell.hold(sort));
}

/// The handles of an element that is handed out become loose.
pub fn loosen_all(table: &mut Table, rs: &[Reference])
    ensures { counts_in table.new ≡ each loosened (counts_in table.old) rs.now }
{
    change_all(table, rs, |cell, sort| cell.loosen(sort));
}
