// The pages of a sheet: which row each call has, and where a page begins. A page is printed with all its lines of spaces when it begins, so
// what stands at any time is the sheet of the calls so far.
ghost use Rattle.std.specs.Prelude.{◌≡◌, ℕ, ◌+◌, ◌*◌, ◌<◌, ◌≤◌, List, ◌∷◌, length};
ghost use Rattle.std.proofs.lemmas.List.Edits.{sets};
ghost use Rattle.list.specs.declared.Record.{Record};
ghost use Rattle.pages.specs.Rows as Rows;
ghost use Rattle.pages.specs.Rows.{title, gaps, rows_of};
ghost use Rattle.pages.specs.Lines.{lines_of};
ghost use Rattle.pages.specs.Working.{number_of, Named, Called, Roomy, Stands};

use crate::lines;
use crate::lines::Text;
use list::Record;
use table::Function;

// How far the printing has come: pages begun, rows used, and the resource of the last call on the page, none where there is no call yet.
#[derive(Clone, Copy)]
pub struct Reached {
    pub pages: usize,
    pub rows: usize,
    pub last: Option<Function>,
}

// The lines of spaces that are due before a call of f.
fn due(last: Option<Function>, f: Function) -> usize
    requires { Named last }
    ensures { result ≡ Rows.due (number_of last) f.0 }
{
    match last {
        None => 0,
        Some(g) => usize::from(g != f),
    }
}

// Page k, from 0, with its title and nothing else.
fn begin(text: &mut Text, k: usize)
    requires { k < 24 }
    ensures { text.new ≡ sets text.old (792 * k) (lines_of (title (k + 1) ∷ gaps 23)) }
{
    let first = 24 * k;
    lines::title(text, first, (k + 1) as u16);
    for i in 0..23 {
        lines::blank(text, first + 1 + i);
    }
}

// The next call: on the page with the lines of spaces due before it, or first on a new one.
fn add(text: &mut Text, w: Reached, r: Record) -> Reached
    requires { Roomy w r }
    ensures { (all rest : List Record) (text₀ : List ℕ) → Stands all (r ∷ rest) text₀ text.old w
        → Stands all rest text₀ text.new result }
{
    let callee = r.callee;
    let end = 24 * w.pages;
    let last = w.last;
    let row = w.rows + due(last, callee);
    if row < end {
        lines::call(text, row, r);
        let rows = row + 1;
        return Reached {
            pages: w.pages,
            rows,
            last: Some(callee),
        };
    }
    begin(text, w.pages);
    lines::call(text, end + 1, r);
    let pages = w.pages + 1;
    let rows = end + 2;
    Reached {
        pages,
        rows,
        last: Some(callee),
    }
}

// The sheet of some records, and how many bytes it has.
pub(crate) fn print(records: &[Record], text: &mut Text) -> usize
    requires { (length (rows_of records.now) ≤ 576) × Called records.now }
    ensures { (result ≡ length (lines_of (rows_of records.now)))
        × (text.new ≡ sets text.old 0 (lines_of (rows_of records.now))) }
{
    begin(text, 0);
    let mut w = Reached {
        pages: 1,
        rows: 1,
        last: None,
    };
    for r in records {
        w = add(text, w, *r);
    }
    792 * w.pages
}
