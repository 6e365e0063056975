// The arbiter sheet as a C function.
ghost use Rattle.std.specs.Prelude.{◌≡◌};
ghost use Rattle.pages.specs.Sheet.{sheet_over};
ghost use Rattle.exports.specs.Codes.{extent_of, extent_code};

use crate::codes;

// Fills a lent text with the sheet of a table from the front; bytes past the sheet keep their content, and all on a refusal.
#[unsafe(no_mangle)]
pub extern "C" fn sheet_fill(bytes: &[u8], text: &mut [u8; 19008]) -> u64
    ensures { (result ≡ extent_code (extent_of bytes.now))
        × (text.new ≡ sheet_over bytes.now text.old) }
{
    match pages::fill_sheet(bytes, text) {
        Err(refusal) => codes::refusal(refusal),
        Ok(filled) => 4294967296 + filled.length as u64,
    }
}
