// What a step reads and opens along a chain of siblings.
ghost use Rattle.std.specs.Prelude.{◌≡◌, ◌≤◌, ◌&&◌, map, ◌==◌};
ghost use Rattle.table.specs.Bundle.{bytes};
ghost use Rattle.table.specs.Pick.{pick};
ghost use Rattle.table.specs.Bytes.{nodes, next};
ghost use Rattle.table.specs.Naming.{chain};
ghost use Rattle.rules.specs.State.{entry, opened};
ghost use Rattle.rules.specs.Operations.{operate};
ghost use Rattle.table.specs.Working.{IsNode};
ghost use Rattle.circuit.specs.Working.{each_done, leading, last_from};

use crate::{operations, store};
use table::decoded::Decoded;
use table::{Node, decoded};

// Whether the node at c and all that follow it are done; of a let (defs) all but the last.
pub(crate) fn all_done(design: &Decoded, status: &[u8; 512], c: Node, defs: bool) -> bool
    requires { (c.0 ≤ nodes (bytes design.now)) }
    ensures { result ≡ each_done (entry status.now 0) (leading defs (chain (bytes design.now) c.0)) }
{
    let mut at = c;
    while at.0 != 0 {
        let on = decoded::next(design.cells, at);
        if ends(on, defs) {
            return true;
        }
        if store::status_at(status, at) != 3 {
            return false;
        }
        at = on;
    }
    true
}

// Whether a node of a let, before `on`, is its body.
pub(crate) fn ends(on: Node, defs: bool) -> bool
    ensures { result ≡ (defs && on.0 == 0) }
{
    if defs { on.0 == 0 } else { false }
}

// The last node of a chain, 0 of an empty one.
pub(crate) fn last_of(design: &Decoded, c: Node) -> Node
    requires { (c.0 ≤ nodes (bytes design.now)) }
    ensures { (result.0 ≡ last_from 0 (chain (bytes design.now) c.0)) × (result.0 ≤ nodes (bytes design.now)) }
{
    let mut at = Node(0);
    let mut on = c;
    while on.0 != 0 {
        at = on;
        on = decoded::next(design.cells, at);
    }
    at
}

// An operation on the values of the children from c on.
pub(crate) fn operation(design: &Decoded, value: &[u32; 512], op: u16, c: Node) -> u32
    requires { (c.0 ≤ nodes (bytes design.now)) }
    ensures { result ≡ operate op (map (entry value.now 0) (chain (bytes design.now) c.0)) }
{
    if c.0 == 0 {
        return operations::of_two(op, 0, 0, 0);
    }
    if 9 < op {
        let last = last_of(design, c);
        return operations::of_two(op, 0, 0, store::value_at(value, last));
    }
    let x = store::value_at(value, c);
    let d = decoded::next(design.cells, c);
    let y = store::value_at(value, d);
    operations::of_two(op, x, y, 0)
}

// Opens the node at c and all that follow it; of a let (defs) all but the last.
pub(crate) fn open_all(design: &Decoded, status: &mut [u8; 512], c: Node, defs: bool)
    requires { (c.0 ≤ nodes (bytes design.now)) }
    ensures { status.new ≡ opened status.old (leading defs (chain (bytes design.now) c.0)) }
{
    let mut at = c;
    while at.0 != 0 {
        let on = decoded::next(design.cells, at);
        if ends(on, defs) {
            return;
        }
        store::set_status(status, at, 1);
        at = on;
    }
}

// The branch of an if that the condition's value takes.
pub(crate) fn branch(design: &Decoded, value: &[u32; 512], a: Node) -> Node
    requires { IsNode (bytes design.now) a.0 × IsNode (bytes design.now) (next (bytes design.now) a.0) }
    ensures { result.0 ≡ pick (entry value.now 0 a.0 == 0)
        (next (bytes design.now) (next (bytes design.now) a.0)) (next (bytes design.now) a.0) }
{
    let b = decoded::next(design.cells, a);
    if store::value_at(value, a) == 0 {
        return decoded::next(design.cells, b);
    }
    b
}
