// What is checked before a step, a query or a run: the table, its tags, and 24. Tables are decoded here and nowhere else; a start needs
// none decoded, and has `list` check its own.
ghost use Rattle.std.specs.Prelude.{◌≡◌, length};
ghost use Rattle.circuit.specs.Working.{ReadIn, Admitted};

use crate::standing;
use table::decoded::{Cells, Decoded};
use table::{Design, Reason, Refusal};

// The table and its tags; where both are taken, the table is decoded into the cells.
pub(crate) fn read_in(table: &[u8], tags: &[u8], cells: &mut Cells) -> Result<Design, Refusal>
    requires { length cells.old ≡ 3270 }
    ensures { ReadIn table.now tags.now result cells.new }
{
    table::survey(table, cells)?;
    list::check_held(cells, tags)
}

// The same, then 24: before a query and before a run.
pub(crate) fn admit(
    table: &[u8],
    tags: &[u8],
    status: &[u8; 512],
    occupant: &[u16; 32],
    cells: &mut Cells,
) -> Result<Design, Refusal>
    requires { length cells.old ≡ 3270 }
    ensures { Admitted table.now tags.now status.now occupant.now result
        cells.new }
{
    let design = read_in(table, tags, cells)?;
    if standing::strays(&Decoded { table, cells }, status, occupant) {
        return Err(Reason::Astray.into());
    }
    Ok(design)
}
