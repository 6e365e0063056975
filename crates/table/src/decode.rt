// Records of a table of the right size put into their slots.
ghost use Rattle.std.specs.Prelude.{◌≡◌, ◌+◌, ◌/◌, ◌%◌, ◌<◌, length};
ghost use Rattle.table.specs.Naming.{owner, parent};
ghost use Rattle.table.specs.Bytes.{two_at, functions};
ghost use Rattle.table.specs.Decoded.{
  put_numbers,
  node_slot,
  node_number,
  function_slot,
  function_number,
  table_slot,
  table_number,
  functions_put,
  decoded_into,
};
ghost use Rattle.table.specs.Working.{Framed, IsFunction, At, Kindred};

use crate::decoded::Cells;
use crate::{Function, Node, decoded, frame};

// The number of the two bytes at a place that is inside, the lower one first.
pub(crate) fn two_at(table: &[u8], at: usize) -> u16
    requires { at + 1 < length table.now }
    ensures { result ≡ two_at table.now at }
{
    u16::from_le_bytes([table[at], table[at + 1]])
}

// F and N.
pub(crate) fn sizes(table: &[u8], cells: &mut Cells)
    requires { Framed table.now }
    ensures { cells.new ≡ put_numbers 2 table_slot (table_number table.now) cells.old }
{
    decoded::put(cells, 544, 0, two_at(table, 0));
    decoded::put(cells, 544, 1, two_at(table, 2));
}

pub(crate) fn function(table: &[u8], f: Function, cells: &mut Cells)
    requires { Framed table.now × IsFunction table.now f.0 }
    ensures { cells.new ≡ put_numbers 2 (function_slot f.0) (function_number table.now f.0) cells.old }
{
    let at = 4 * (f.0 as usize);
    let slot = decoded::function_slot(f);
    decoded::put(cells, slot, 0, two_at(table, at));
    decoded::put(cells, slot, 1, two_at(table, at + 2));
}

// Node n, of a table whose node records begin at `base`. All is read before anything is put, so that the record is copied in two moves.
pub(crate) fn node(table: &[u8], base: usize, n: Node, cells: &mut Cells)
    requires { At table.now base n.0 }
    ensures { cells.new ≡ put_numbers 5 (node_slot n.0) (node_number table.now n.0) cells.old }
{
    let at = base + 10 * (n.0 as usize) - 10;
    let kind = two_at(table, at);
    let low = two_at(table, at + 2);
    let high = two_at(table, at + 4);
    let first = two_at(table, at + 6);
    let next = two_at(table, at + 8);
    let slot = decoded::node_slot(n);
    decoded::put(cells, slot, 0, kind);
    decoded::put(cells, slot, 1, low);
    decoded::put(cells, slot, 2, high);
    decoded::put(cells, slot, 3, first);
    decoded::put(cells, slot, 4, next);
}

// Node n, with its function and parent from its kin.
fn whole(table: &[u8], base: usize, n: Node, own: u32, cells: &mut Cells)
    requires { At table.now base n.0 × (own % 64 ≡ owner table.now n.0) × (own / 64 % 1024 ≡ parent table.now n.0) }
    ensures { cells.new ≡ put_numbers 6 (node_slot n.0) (node_number table.now n.0) cells.old }
{
    node(table, base, n, cells);
    decoded::put(cells, decoded::node_slot(n), 5, (own % 65536) as u16);
}

// All functions.
fn functions(table: &[u8], main: Function, cells: &mut Cells)
    requires { Framed table.now × (main.0 ≡ functions table.now) }
    ensures { cells.new ≡ functions_put table.now (functions table.now) cells.old }
{
    for f in 1..=main.0 {
        function(table, Function(f), cells);
    }
}

// The whole of an accepted table.
pub(crate) fn fill(table: &[u8], kin: &[u32; 513], cells: &mut Cells)
    requires { Framed table.now × Kindred table.now kin.now }
    ensures { cells.new ≡ decoded_into table.now cells.old }
{
    sizes(table, cells);
    functions(table, frame::last_function(table), cells);
    let base = frame::base(table);
    for n in 1..=frame::last_node(table).0 {
        whole(table, base, Node(n), kin[n as usize], cells);
    }
}
