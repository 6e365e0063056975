// The sizes of a table and its function records (refusals 1 to 3; the records' part of 4 and 5).
ghost use Rattle.std.specs.Prelude.{◌≡◌, ◌&&◌, ◌+◌, ◌*◌, leb};
ghost use Rattle.table.specs.Bytes.{functions, nodes};
ghost use Rattle.table.specs.Find.{all};
ghost use Rattle.table.specs.Check.{among, root_fits, record_fits};
ghost use Rattle.table.specs.Working.{Framed, Filled, Raw, first_number, frame_number};

use crate::decoded::Cells;
use crate::{Function, Node, Reason, decode, decoded};

// Main's number.
pub(crate) fn last_function(table: &[u8]) -> Function
    requires { Framed table.now }
    ensures { result.0 ≡ functions table.now }
{
    Function(decode::two_at(table, 0))
}

// The last node's number.
pub(crate) fn last_node(table: &[u8]) -> Node
    requires { Framed table.now }
    ensures { result.0 ≡ nodes table.now }
{
    Node(decode::two_at(table, 2))
}

// Where the node records begin.
pub(crate) fn base(table: &[u8]) -> usize
    requires { Framed table.now }
    ensures { result ≡ 4 + 4 * functions table.now }
{
    let main = last_function(table);
    4 + 4 * (main.0 as usize)
}

// Refusals 1 to 3.
pub(crate) fn framed(table: &[u8]) -> Result<(), Reason>
    ensures { first_number result ≡ frame_number table.now }
{
    let len = table.len();
    if len < 4 {
        return Err(Reason::Short);
    }
    let f = decode::two_at(table, 0) as usize;
    let n = decode::two_at(table, 2) as usize;
    if f < 1 {
        return Err(Reason::Sizes);
    }
    if 32 < f {
        return Err(Reason::Sizes);
    }
    if n < 1 {
        return Err(Reason::Sizes);
    }
    if 512 < n {
        return Err(Reason::Sizes);
    }
    if len != 4 + 4 * f + 10 * n {
        return Err(Reason::Length);
    }
    Ok(())
}

// Whether every root is one of the nodes.
pub(crate) fn roots_fit(table: &[u8], cells: &Cells) -> bool
    requires { Framed table.now × Filled table.now (functions table.now) 0 0 cells.now }
    ensures { result ≡ all (root_fits table.now) (functions table.now) }
{
    let main = last_function(table).0;
    let last = last_node(table);
    for f in 1..=main {
        if !root_fits(decoded::root(cells, Function(f)), last) {
            return false;
        }
    }
    true
}

fn root_fits(root: Node, last: Node) -> bool
    ensures { result ≡ among 1 last.0 root.0 }
{
    1 <= root.0 && root.0 <= last.0
}

// Whether every parameter count and width is allowed.
pub(crate) fn records_fit(table: &[u8], cells: &Cells) -> bool
    requires { Framed table.now × Raw table.now cells.now }
    ensures { result ≡ all (record_fits table.now) (functions table.now) }
{
    let main = last_function(table).0;
    for f in 1..=main {
        if !record_fits(
            decoded::params(cells, Function(f)),
            decoded::width(cells, Function(f)),
        ) {
            return false;
        }
    }
    true
}

fn record_fits(params: u16, width: u16) -> bool
    ensures { result ≡ (leb params 8 && leb width 32) }
{
    params <= 8 && width <= 32
}
