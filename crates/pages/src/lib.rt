// The arbiter sheet of a design table: its listed calls by resource, on pages of 24 lines of 32 characters and a line feed.
#![tactic(auto)]

mod layout;
mod lines;

ghost use Rattle.pages.specs.Sheet.{Printed, FilledWith};

use crate::lines::Text;
use table::{Design, Refusal};

// The bytes of a sheet, zeros after them, how many they are, and the design that the sheet is of.
#[derive(Clone, Copy)]
pub struct Sheet {
    pub design: Design,
    pub text: Text,
    pub length: usize,
}

// How many bytes of a lent text were filled, and the design whose sheet they are.
#[derive(Clone, Copy, PartialEq, Eq)]
pub struct Filled {
    pub design: Design,
    pub length: usize,
}

// The sheet of a table by value.
pub fn sheet_of(table: &[u8]) -> Result<Sheet, Refusal>
    ensures { Printed table.now result }
{
    let mut text = [0u8; 19008];
    let filled = fill_sheet(table, &mut text)?;
    Ok(Sheet {
        design: filled.design,
        text,
        length: filled.length,
    })
}

// Fills a lent text with the sheet of a table from the front; bytes past the sheet keep their content, and all on a refusal.
pub fn fill_sheet(table: &[u8], text: &mut Text) -> Result<Filled, Refusal>
    ensures { FilledWith table.now text.old text.new result }
{
    let found = list::list_records(table)?;
    Ok(Filled {
        design: found.design,
        length: layout::print(&found.items[..found.count], text),
    })
}
