// Who names each node: a node's kin (its function, parent and rank in one number) is handed to it by the root or link that
// names it, and nothing may be named twice. Place 0 takes what an absent link is handed, and is cleared.
ghost use Rattle.std.specs.Prelude.{◌≡◌, true, ◌+◌, ◌*◌, ◌/◌, ◌%◌, ◌<◌, length, get_or, replicate};
ghost use Rattle.table.specs.Bytes.{functions, nodes};
ghost use Rattle.table.specs.Working.{Framed, IsFunction, At};
ghost use Rattle.table.specs.Sweep.{Handed, RootFits, RootsFit, Links};

use crate::{Function, Node, frame, records};

// The function and the parent that a node's kin holds.
pub(crate) fn owner(own: u32) -> Function
    ensures { result.0 ≡ own % 64 }
{
    Function((own % 64) as u16)
}

pub(crate) fn parent(own: u32) -> Node
    ensures { result.0 ≡ own / 64 % 1024 }
{
    Node((own / 64 % 1024) as u16)
}

// Whether function f's record fits, and its root has no next.
fn root_fits(table: &[u8], base: usize, last: Node, f: Function) -> bool
    requires { Framed table.now × IsFunction table.now f.0 × (base ≡ 4 + 4 * functions table.now)
        × (last.0 ≡ nodes table.now) }
    ensures { result ≡ true → RootFits table.now f.0 }
{
    let root = records::root(table, f);
    if root.0 < 1 {
        return false;
    }
    if last.0 < root.0 {
        return false;
    }
    if 8 < records::params(table, f) {
        return false;
    }
    if 32 < records::width_byte(table, f) {
        return false;
    }
    records::next(table, base, root).0 == 0
}

// Each root is handed its function.
pub(crate) fn roots(table: &[u8], kin: &mut [u32; 513]) -> bool
    requires { Framed table.now × (kin.old ≡ replicate 513 0) }
    ensures { result ≡ true → Handed table.now (functions table.now) 0 kin.new
        × RootsFit table.now (functions table.now) }
{
    let base = frame::base(table);
    let last = frame::last_node(table);
    let main = frame::last_function(table).0;
    for f in 1..=main {
        if !root_fits(table, base, last, Function(f)) {
            return false;
        }
        let at = records::root(table, Function(f)).0 as usize;
        if kin[at] != 0 {
            return false;
        }
        kin[at] = (f as u32) + 65536;
    }
    true
}

// Node n, which has its kin, hands on to its next and its first.
pub(crate) fn hand_on(table: &[u8], base: usize, last: Node, n: Node, kin: &mut [u32; 513]) -> bool
    requires { At table.now base n.0 × (last.0 ≡ nodes table.now) × (length kin.old ≡ 513)
        × (get_or kin.old n.0 0 < 67108864) }
    ensures { result ≡ true → Links table.now n.0 kin.old kin.new }
{
    let first = records::first(table, base, n);
    let next = records::next(table, base, n);
    let own = kin[n.0 as usize];
    if own == 0 {
        return false;
    }
    if last.0 < first.0 {
        return false;
    }
    if last.0 < next.0 {
        return false;
    }
    if kin[next.0 as usize] != 0 {
        return false;
    }
    kin[next.0 as usize] = own + 65536;
    kin[0] = 0;
    if kin[first.0 as usize] != 0 {
        return false;
    }
    kin[first.0 as usize] = own % 64 + 64 * (n.0 as u32) + 65536;
    kin[0] = 0;
    true
}
