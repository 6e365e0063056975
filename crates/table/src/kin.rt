// What each node is part of: its function, its parent, and whether it is in tail position.
ghost use Rattle.std.specs.Prelude.{◌≡◌, true, ◌&&◌, ◌-◌, ◌<◌, eqb};
ghost use Rattle.table.specs.Pick.{pick};
ghost use Rattle.table.specs.Bytes.{functions, nodes, first};
ghost use Rattle.table.specs.Naming.{root_of, namer as namerOf, parent as parent_of, tail_child};
ghost use Rattle.table.specs.Working.{Framed, IsNode, Filled, Raw, Tops, Holders, Tails, Decoded, Linked, Kindred};

use crate::decoded::Cells;
use crate::{Function, Node, decoded};

// A root's function is its own, any other node's that of the node that names it.
fn owner_of(namer: Node, root: Function, above: Function) -> Function
    ensures { result.0 ≡ pick (eqb namer.0 0) root.0 above.0 }
{
    if namer.0 == 0 { root } else { above }
}

// The node that names n as its first child, else that one's parent.
fn parent_of(table: &[u8], cells: &Cells, namer: Node, n: Node, above: Node) -> Node
    requires { Raw table.now cells.now × IsNode table.now n.0 × (namer.0 < n.0) }
    ensures { result.0 ≡ pick (eqb namer.0 0) 0 (pick (eqb (first table.now namer.0) n.0) namer.0 above.0) }
{
    if namer.0 == 0 {
        return Node(0);
    }
    let first = decoded::first(cells, namer);
    if first == n { namer } else { above }
}

// A branch of an if or the body of a let, whose parent p is in tail position.
fn tail_of(table: &[u8], cells: &Cells, p: Node, n: Node, above: bool) -> bool
    requires { Raw table.now cells.now × IsNode table.now n.0 × (p.0 < n.0) }
    ensures { result ≡ pick (eqb p.0 0) true (tail_child table.now p.0 n.0 && above) }
{
    if p.0 == 0 {
        return true;
    }
    match decoded::kind(cells, p) {
        5 => decoded::first(cells, p) != n && above,
        6 => decoded::next(cells, n).0 == 0 && above,
        _ => false,
    }
}

// Parents and namers are lower than their nodes, so one pass in ascending order fills all of them. What is returned is by node number.
pub(crate) fn collect(
    table: &[u8],
    cells: &mut Cells,
    roots: &[u16; 513],
    namers: &[u16; 513],
) -> [bool; 513]
    requires { Framed table.now × Tops table.now roots.now × Holders table.now namers.now
        × Filled table.now (functions table.now) (nodes table.now) 0
        cells.old }
    ensures { Tails table.now result × Filled table.now (functions table.now)
        (nodes table.now) (nodes table.now) cells.new }
{
    let last = decoded::last(cells).0;
    let mut tail = [true; 513];
    for n in 1..=last {
        let at = n as usize;
        let namer = Node(namers[at]);
        let root = Function(roots[at]);
        let up = relate(table, cells, namer, root, Node(n));
        let p = up.0 as usize;
        tail[at] = tail_of(table, cells, up, Node(n), tail[p]);
    }
    tail
}

// Puts node n's function and parent into its slot; what names it is lower, and has them.
fn relate(table: &[u8], cells: &mut Cells, namer: Node, root: Function, n: Node) -> Node
    requires { Framed table.now × IsNode table.now n.0 × (namer.0 ≡ namerOf table.now n.0)
        × (root.0 ≡ root_of table.now n.0) × Filled table.now (functions table.now) (nodes table.now) (n.0 - 1) cells.old }
    ensures { (result.0 ≡ parent_of table.now n.0) × Filled table.now (functions table.now)
        (nodes table.now) n.0 cells.new }
{
    let mine = decoded::owner(cells, namer);
    let own = owner_of(namer, root, mine);
    let above = decoded::parent(cells, namer);
    let up = parent_of(table, cells, namer, n, above);
    let slot = decoded::node_slot(n);
    decoded::put(cells, slot, 5, own.0 + 64 * up.0);
    up
}

// Function and parent of each node in one number, as the sweep has them.
pub(crate) fn recall(table: &[u8], cells: &Cells) -> [u32; 513]
    requires { Framed table.now × Decoded table.now cells.now × Linked table.now }
    ensures { Kindred table.now result }
{
    let last = decoded::last(cells).0;
    let mut kin = [0u32; 513];
    for n in 1..=last {
        let own = decoded::owner(cells, Node(n));
        let up = decoded::parent(cells, Node(n));
        kin[n as usize] = (own.0 as u32) + 64 * (up.0 as u32);
    }
    kin
}
