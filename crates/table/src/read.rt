// Total readers of a table's fields: past the end every byte reads 0, and the numbers 0, which are none, read as 1.
ghost use Rattle.std.specs.Prelude.{◌≡◌, ◌<◌};
ghost use Rattle.table.specs.Bytes.{byte_at, two_at, four_at, functions, nodes, function_at, node_at};
ghost use Rattle.table.specs.Bytes.{params, width, root, kind, extra, word, first, next};

use crate::{Function, Node};

fn byte_at(table: &[u8], i: usize) -> u8
    ensures { result ≡ byte_at table.now i }
{
    table.get(i).copied().unwrap_or(0)
}

fn two_at(table: &[u8], i: usize) -> u16
    requires { i < 2000000 }
    ensures { result ≡ two_at table.now i }
{
    u16::from_le_bytes([byte_at(table, i), byte_at(table, i + 1)])
}

fn four_at(table: &[u8], i: usize) -> u32
    requires { i < 1000000 }
    ensures { result ≡ four_at table.now i }
{
    let low = two_at(table, i);
    let high = two_at(table, i + 2);
    (low as u32) + 65536 * (high as u32)
}

// How many functions there are; main is the last.
pub fn functions(table: &[u8]) -> Function
    ensures { result.0 ≡ functions table.now }
{
    Function(two_at(table, 0))
}

// How many nodes there are.
pub fn nodes(table: &[u8]) -> Node
    ensures { result.0 ≡ nodes table.now }
{
    Node(two_at(table, 2))
}

// Where a function's record begins.
fn function_at(f: Function) -> usize
    ensures { (result ≡ function_at f.0) × (result < 300000) }
{
    let k = f.0 as usize;
    if k == 0 { 4 } else { 4 + 4 * (k - 1) }
}

// Where a node's record begins.
fn node_at(table: &[u8], n: Node) -> usize
    ensures { (result ≡ node_at table.now n.0) × (result < 950000) }
{
    let count = two_at(table, 0) as usize;
    let k = n.0 as usize;
    if k == 0 {
        4 + 4 * count
    } else {
        4 + 4 * count + 10 * (k - 1)
    }
}

pub fn params(table: &[u8], f: Function) -> u8
    ensures { result ≡ params table.now f.0 }
{
    let at = function_at(f);
    byte_at(table, at)
}

// A function's width in bits: its width byte, 0 meaning 32.
pub fn width(table: &[u8], f: Function) -> u8
    ensures { result ≡ width table.now f.0 }
{
    let at = function_at(f);
    let byte = byte_at(table, at + 1);
    if byte == 0 { 32 } else { byte }
}

pub fn root(table: &[u8], f: Function) -> Node
    ensures { result.0 ≡ root table.now f.0 }
{
    let at = function_at(f);
    Node(two_at(table, at + 2))
}

pub fn kind(table: &[u8], n: Node) -> u8
    ensures { result ≡ kind table.now n.0 }
{
    let at = node_at(table, n);
    byte_at(table, at)
}

pub fn extra(table: &[u8], n: Node) -> u8
    ensures { result ≡ extra table.now n.0 }
{
    let at = node_at(table, n);
    byte_at(table, at + 1)
}

pub fn word(table: &[u8], n: Node) -> u32
    ensures { result ≡ word table.now n.0 }
{
    let at = node_at(table, n);
    four_at(table, at + 2)
}

pub fn first(table: &[u8], n: Node) -> Node
    ensures { result.0 ≡ first table.now n.0 }
{
    let at = node_at(table, n);
    Node(two_at(table, at + 6))
}

pub fn next(table: &[u8], n: Node) -> Node
    ensures { result.0 ≡ next table.now n.0 }
{
    let at = node_at(table, n);
    Node(two_at(table, at + 8))
}
