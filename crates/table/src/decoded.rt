// A decoded table: 545 slots of 6 numbers, read faster than bytes. Node n has slot n mod 512, function f slot 512 + f mod 32, the table
// itself the last. A slot is put number by number and read field by field. A node's numbers are its record's ten bytes two by two, kind
// and extra, low and high half of the word, first child, next sibling, then function + 64 * parent; a function's are its record's four
// bytes, parameter count and width byte, then root; the table's are F and N. The readers take any number: what is no node's and no
// function's reads another's slot.
ghost use Rattle.std.specs.Prelude.{◌≡◌, ◌+◌, ◌*◌, ◌<◌};
ghost use Rattle.table.specs.Bytes.{bits};
ghost use Rattle.table.specs.Working.{Read};
ghost use Rattle.table.specs.Decoded.{cell_at, put_number, node_slot, function_slot, table_slot};

use crate::{Function, Node};

pub type Cells = [u16; 3270];

// A table that the check takes, and the cells that it was decoded into.
#[derive(Clone, Copy)]
pub struct Decoded<'a> {
    pub table: &'a [u8],
    pub cells: &'a Cells,
    ghost read: { Read table.now cells.now },
}

// Field k of a slot: number 0 holds two, number 5 the last two. Every call names its k, so that the compiled code has no choice to make.
fn get(cells: &Cells, slot: usize, k: usize) -> u16
    requires { (slot < 545) × (k < 8) }
    ensures { result ≡ cell_at cells.now slot k }
{
    let at = 6 * slot;
    match k {
        0 => cells[at] % 256,
        1 => cells[at] / 256,
        6 => cells[at + 5] % 64,
        7 => cells[at + 5] / 64,
        _ => cells[at + k - 1],
    }
}

// Number k of a slot.
pub(crate) fn put(cells: &mut Cells, slot: usize, k: usize, x: u16)
    requires { (slot < 545) × (k < 6) }
    ensures { cells.new ≡ put_number cells.old slot k x }
{
    cells[6 * slot + k] = x;
}

pub(crate) fn node_slot(n: Node) -> usize
    ensures { (result ≡ node_slot n.0) × (result < 512) }
{
    (n.0 % 512) as usize
}

pub(crate) fn function_slot(f: Function) -> usize
    ensures { (result ≡ function_slot f.0) × (result < 544) }
{
    512 + (f.0 % 32) as usize
}

pub fn kind(cells: &Cells, n: Node) -> u16
    ensures { result ≡ cell_at cells.now (node_slot n.0) 0 }
{
    get(cells, node_slot(n), 0)
}

pub fn extra(cells: &Cells, n: Node) -> u16
    ensures { result ≡ cell_at cells.now (node_slot n.0) 1 }
{
    get(cells, node_slot(n), 1)
}

pub fn word(cells: &Cells, n: Node) -> u32
    ensures { result ≡ cell_at cells.now (node_slot n.0) 2 + 65536 * cell_at cells.now (node_slot n.0) 3 }
{
    let low = get(cells, node_slot(n), 2);
    let high = get(cells, node_slot(n), 3);
    (low as u32) + 65536 * (high as u32)
}

// The function that a call calls: the low half of its word.
pub fn callee(cells: &Cells, n: Node) -> Function
    ensures { result.0 ≡ cell_at cells.now (node_slot n.0) 2 }
{
    Function(get(cells, node_slot(n), 2))
}

// The definiens of a bound: the low half of its word.
pub fn definiens(cells: &Cells, n: Node) -> Node
    ensures { result.0 ≡ cell_at cells.now (node_slot n.0) 2 }
{
    Node(get(cells, node_slot(n), 2))
}

pub fn first(cells: &Cells, n: Node) -> Node
    ensures { result.0 ≡ cell_at cells.now (node_slot n.0) 4 }
{
    Node(get(cells, node_slot(n), 4))
}

pub fn next(cells: &Cells, n: Node) -> Node
    ensures { result.0 ≡ cell_at cells.now (node_slot n.0) 5 }
{
    Node(get(cells, node_slot(n), 5))
}

// The function that a node is part of.
pub fn owner(cells: &Cells, n: Node) -> Function
    ensures { result.0 ≡ cell_at cells.now (node_slot n.0) 6 }
{
    Function(get(cells, node_slot(n), 6))
}

pub fn parent(cells: &Cells, n: Node) -> Node
    ensures { result.0 ≡ cell_at cells.now (node_slot n.0) 7 }
{
    Node(get(cells, node_slot(n), 7))
}

pub fn params(cells: &Cells, f: Function) -> u16
    ensures { result ≡ cell_at cells.now (function_slot f.0) 0 }
{
    get(cells, function_slot(f), 0)
}

// A function's width in bits: its width byte, 0 meaning 32.
pub fn width(cells: &Cells, f: Function) -> u16
    ensures { result ≡ bits (cell_at cells.now (function_slot f.0) 1) }
{
    let byte = get(cells, function_slot(f), 1);
    if byte == 0 { 32 } else { byte }
}

pub fn root(cells: &Cells, f: Function) -> Node
    ensures { result.0 ≡ cell_at cells.now (function_slot f.0) 2 }
{
    Node(get(cells, function_slot(f), 2))
}

// Main's number, F.
pub fn main(cells: &Cells) -> Function
    ensures { result.0 ≡ cell_at cells.now table_slot 0 }
{
    Function(get(cells, 544, 0))
}

// The last node's number, N.
pub fn last(cells: &Cells) -> Node
    ensures { result.0 ≡ cell_at cells.now table_slot 2 }
{
    Node(get(cells, 544, 2))
}
