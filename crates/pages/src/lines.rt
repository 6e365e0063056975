// The lines of a sheet, written over a lent text.
ghost use Rattle.std.specs.Prelude.{◌≡◌, ◌+◌, ◌*◌, ◌≤◌, ◌<◌, length};
ghost use Rattle.std.proofs.lemmas.List.Edits.{sets};
ghost use Rattle.pages.specs.Rows as Rows;
ghost use Rattle.pages.specs.Lines as Lines;
ghost use Rattle.pages.specs.Lines.{right, line_of};
ghost use Rattle.pages.specs.Working.{both, call_over};

use list::Record;

// 24 pages of 24 lines of 33 bytes.
pub type Text = [u8; 19008];

// Writes bytes over the text, from byte `at` on.
fn lay(text: &mut Text, at: usize, bytes: &[u8])
    requires { at + length bytes.now ≤ 19008 }
    ensures { text.new ≡ sets text.old at bytes.now }
{
    text[at..at + bytes.len()].copy_from_slice(bytes);
}

// The digit of n that a weight has, a space where n is less than the weight.
fn digit(weight: u16, n: u16) -> u8
    requires { 1 ≤ weight }
    ensures { result ≡ Lines.digit weight n }
{
    if n < weight {
        return 32;
    }
    48 + (n / weight % 10) as u8
}

// Writes both digits of r into the two columns from byte `at` on.
fn pair(text: &mut Text, at: usize, r: u16)
    requires { (at + 2 ≤ 19008) × (r < 100) }
    ensures { text.new ≡ sets text.old at (both r) }
{
    text[at] = 48 + (r / 10) as u8;
    text[at + 1] = 48 + (r % 10) as u8;
}

// Writes n into the four columns from byte `at` on, at their right.
fn number(text: &mut Text, at: usize, n: u16)
    requires { at + 4 ≤ 19008 }
    ensures { text.new ≡ sets text.old at (right n) }
{
    if n < 10 {
        text[at] = 32;
        text[at + 1] = 32;
        text[at + 2] = 32;
        text[at + 3] = 48 + n as u8;
        return;
    }
    if n < 100 {
        text[at] = 32;
        text[at + 1] = 32;
        pair(text, at + 2, n);
        return;
    }
    text[at] = digit(1000, n);
    text[at + 1] = digit(100, n);
    pair(text, at + 2, n % 100);
}

// Row `row` becomes a line of spaces.
pub(crate) fn blank(text: &mut Text, row: usize)
    requires { row < 576 }
    ensures { text.new ≡ sets text.old (33 * row) (line_of Rows.gap) }
{
    lay(text, 33 * row, b"                                \n");
}

// Row `row` becomes the title of this page.
pub(crate) fn title(text: &mut Text, row: usize, page: u16)
    requires { row < 576 }
    ensures { text.new ≡ sets text.old (33 * row) (line_of (Rows.title page)) }
{
    lay(text, 33 * row, b" RES    CALL    NODE  PAGE      \n");
    number(text, 33 * row + 28, page);
}

// Row `row`, a line of spaces, becomes that of a call.
pub(crate) fn call(text: &mut Text, row: usize, r: Record)
    requires { row < 576 }
    ensures { text.new ≡ call_over text.old (33 * row) r }
{
    let callee = r.callee;
    let caller = r.caller;
    let node = r.node;
    number(text, 33 * row, callee.0);
    number(text, 33 * row + 8, caller.0);
    number(text, 33 * row + 16, node.0);
}
