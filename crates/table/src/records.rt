// The records of a table of the right size, field by field; node records begin at `base`.
ghost use Rattle.std.specs.Prelude.{◌≡◌, ◌+◌, ◌≤◌, length};
ghost use Rattle.table.specs.Bytes.{node_at, params, width_byte, root, kind, extra, word, first, next};
ghost use Rattle.table.specs.Working.{Framed, IsFunction, At};

use crate::{Function, Node, decode};

// Where node n's record begins.
fn offset(table: &[u8], base: usize, n: Node) -> usize
    requires { At table.now base n.0 }
    ensures { (result ≡ node_at table.now n.0) × (result + 10 ≤ length table.now) }
{
    base + 10 * (n.0 as usize) - 10
}

pub(crate) fn kind(table: &[u8], base: usize, n: Node) -> u16
    requires { At table.now base n.0 }
    ensures { result ≡ kind table.now n.0 }
{
    let at = offset(table, base, n);
    table[at] as u16
}

pub(crate) fn extra(table: &[u8], base: usize, n: Node) -> u16
    requires { At table.now base n.0 }
    ensures { result ≡ extra table.now n.0 }
{
    let at = offset(table, base, n);
    table[at + 1] as u16
}

pub(crate) fn word(table: &[u8], base: usize, n: Node) -> u32
    requires { At table.now base n.0 }
    ensures { result ≡ word table.now n.0 }
{
    let at = offset(table, base, n);
    let low = decode::two_at(table, at + 2);
    let high = decode::two_at(table, at + 4);
    (low as u32) + 65536 * (high as u32)
}

pub(crate) fn first(table: &[u8], base: usize, n: Node) -> Node
    requires { At table.now base n.0 }
    ensures { result.0 ≡ first table.now n.0 }
{
    let at = offset(table, base, n);
    Node(decode::two_at(table, at + 6))
}

pub(crate) fn next(table: &[u8], base: usize, n: Node) -> Node
    requires { At table.now base n.0 }
    ensures { result.0 ≡ next table.now n.0 }
{
    let at = offset(table, base, n);
    Node(decode::two_at(table, at + 8))
}

pub(crate) fn params(table: &[u8], f: Function) -> u16
    requires { Framed table.now × IsFunction table.now f.0 }
    ensures { result ≡ params table.now f.0 }
{
    let at = 4 * (f.0 as usize);
    table[at] as u16
}

pub(crate) fn width_byte(table: &[u8], f: Function) -> u16
    requires { Framed table.now × IsFunction table.now f.0 }
    ensures { result ≡ width_byte table.now f.0 }
{
    let at = 4 * (f.0 as usize);
    table[at + 1] as u16
}

pub(crate) fn root(table: &[u8], f: Function) -> Node
    requires { Framed table.now × IsFunction table.now f.0 }
    ensures { result.0 ≡ root table.now f.0 }
{
    let at = 4 * (f.0 as usize);
    Node(decode::two_at(table, at + 2))
}
