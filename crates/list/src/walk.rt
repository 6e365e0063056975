// The walk over expressions: C of section 4.2 as packed sets, and PC wherever expressions are evaluated side by side.
// Node walk and chain walk call each other, into the bodies of callees too; each body is walked at most once, and what it came to is kept.
// What is called last gets the functions met so far, `mask`, and the table behind a thin reference: so LLVM makes a loop of such calls.
ghost use Rattle.std.specs.Prelude.{◌≡◌, true, false, ◌≢◌};
ghost use Rattle.table.specs.Bytes.{first};
ghost use Rattle.table.specs.Bundle.{bytes};
ghost use Rattle.table.specs.Working.{Taken, IsFunction};
ghost use Rattle.list.specs.Arbiters.{no_calls};
ghost use Rattle.list.specs.Tags.{reached};
ghost use Rattle.list.specs.Working.{entry_at, Seen, Memo, Grown, Onto, OntoNode, OntoKids};
ghost use Rattle.list.specs.Working.{Within, KindTo, Beside, Sided, Chained};

use crate::bits;
use crate::bits::Set;
use crate::kept::Kept;
use table::decoded::Decoded;
use table::{Function, Node, decoded};

// Of a chain of siblings: the functions called in one of them, and in two of them; the body of a let.
#[derive(Clone, Copy)]
pub struct Siblings {
    pub once: u32,
    pub twice: u32,
    pub last: Node,
}

// The calls at and below node n of function f go to `set`, its conflicts to those kept; the functions called there come back,
// put to `mask`.
#[cycle(walk)]
fn node_walk(
    design: &Decoded,
    f: Function,
    n: Node,
    mask: u32,
    kept: &mut Kept,
    set: &mut Set,
) -> u32
    requires within { Within (bytes design.now) f.0 n.0 }
    requires memo { Memo (bytes design.now) kept.old }
    ensures { OntoNode (bytes design.now) n.0 mask result set.old set.new
        kept.old kept.new }
{
    let kind = decoded::kind(design.cells, n);
    if kind < 3 {
        return mask;
    }
    if 6 < kind {
        return mask;
    }
    inner_walk(design, f, n, kind, mask, kept, set)
}

// A node that has more to it, by its kind.
#[cycle(walk)]
fn inner_walk(
    design: &Decoded,
    f: Function,
    n: Node,
    kind: u16,
    mask: u32,
    kept: &mut Kept,
    set: &mut Set,
) -> u32
    requires within { Within (bytes design.now) f.0 n.0 }
    requires kind_to { KindTo (bytes design.now) n.0 kind 6 }
    requires memo { Memo (bytes design.now) kept.old }
    ensures { OntoNode (bytes design.now) n.0 mask result set.old set.new
        kept.old kept.new }
{
    if kind == 5 {
        let first = decoded::first(design.cells, n);
        let r = chain_walk(design, f, first, false, kept, set);
        return mask | r.once;
    }
    if kind == 6 {
        let r = side_walk(design, f, n, true, kept, set);
        let both = mask | r.once;
        let last = r.last;
        return node_walk(design, f, last, both, kept, set);
    }
    let own = enter_walk(design, f, n, kind, mask, kept, set);
    kids_walk(design, f, n, own, kept, set)
}

// What node n, a primitive or a call, calls besides its children: where it calls another function, itself and the calls of that body.
#[cycle(walk)]
fn enter_walk(
    design: &Decoded,
    f: Function,
    n: Node,
    kind: u16,
    mask: u32,
    kept: &mut Kept,
    set: &mut Set,
) -> u32
    requires within { Within (bytes design.now) f.0 n.0 }
    requires kind_to { KindTo (bytes design.now) n.0 kind 4 }
    requires memo { Memo (bytes design.now) kept.old }
    ensures { Onto (bytes design.now) (entry_at (bytes design.now) n.0) no_calls mask result set.old
        set.new kept.old kept.new }
{
    if kind == 3 {
        return mask;
    }
    let g = decoded::callee(design.cells, n);
    let own = decoded::owner(design.cells, n);
    if g.0 == own.0 {
        return mask;
    }
    body_walk(design, g, kept);
    let at = g.0 as usize;
    bits::join(set, &kept.calls[at]);
    bits::put(set, n);
    bits::put(&mut kept.sites[at], n);
    let below = kept.called[at];
    mask | (below | (1u32 << g.0))
}

// The children of node n, side by side. One alone is held against nothing, and needs no set of its own.
#[cycle(walk)]
fn kids_walk(
    design: &Decoded,
    f: Function,
    n: Node,
    mask: u32,
    kept: &mut Kept,
    set: &mut Set,
) -> u32
    requires within { Within (bytes design.now) f.0 n.0 }
    requires beside { Beside (bytes design.now) n.0 false }
    requires memo { Memo (bytes design.now) kept.old }
    ensures { OntoKids (bytes design.now) n.0 mask result set.old set.new
        kept.old kept.new }
{
    let first = decoded::first(design.cells, n);
    if first.0 == 0 {
        return mask;
    }
    let next = decoded::next(design.cells, first);
    if next.0 == 0 {
        return node_walk(design, f, first, mask, kept, set);
    }
    let r = side_walk(design, f, n, false, kept, set);
    mask | r.once
}

// The children of node n, of which there are some: their sets are held against each other. Of a let (defs) the definientia alone.
#[cycle(walk)]
fn side_walk(
    design: &Decoded,
    f: Function,
    n: Node,
    defs: bool,
    kept: &mut Kept,
    set: &mut Set,
) -> Siblings
    requires within { Within (bytes design.now) f.0 n.0 }
    requires beside { Beside (bytes design.now) n.0 defs × (first (bytes design.now) n.0 ≢ 0) }
    requires memo { Memo (bytes design.now) kept.old }
    ensures { Sided (bytes design.now) f.0 n.0 defs result set.old set.new
        kept.old kept.new }
{
    let first = decoded::first(design.cells, n);
    let mut own = [0u64; 8];
    let r = chain_walk(design, f, first, defs, kept, &mut own);
    if r.once == 0 {
        return r;
    }
    kept.meet(&own, r.once, r.twice);
    bits::join(set, &own);
    r
}

// Node c and the siblings after it; of a let (defs) the last one, its body, is left out and named.
#[cycle(walk)]
fn chain_walk(
    design: &Decoded,
    f: Function,
    c: Node,
    defs: bool,
    kept: &mut Kept,
    set: &mut Set,
) -> Siblings
    requires within { Within (bytes design.now) f.0 c.0 }
    requires memo { Memo (bytes design.now) kept.old }
    ensures { Chained (bytes design.now) f.0 c.0 defs result set.old set.new
        kept.old kept.new }
{
    let mut at = c;
    let mut once: u32 = 0;
    let mut twice: u32 = 0;
    let mut next = decoded::next(design.cells, at);
    while next.0 != 0 {
        let mask = node_walk(design, f, at, 0, kept, set);
        twice = twice | (once & mask);
        once = once | mask;
        at = next;
        next = decoded::next(design.cells, at);
    }
    if defs {
        return Siblings {
            once,
            twice,
            last: at,
        };
    }
    let mask = node_walk(design, f, at, 0, kept, set);
    Siblings {
        once: once | mask,
        twice: twice | (once & mask),
        last: at,
    }
}

// Walks the body of g, unless that was done before, and keeps its set and the functions called in it.
#[cycle(walk)]
pub(crate) fn body_walk(design: &Decoded, g: Function, kept: &mut Kept)
    requires taken { Taken (bytes design.now) × IsFunction (bytes design.now) g.0 × (reached (bytes design.now) g.0 ≡ true) }
    requires memo { Memo (bytes design.now) kept.old }
    ensures { Memo (bytes design.now) kept.new
        × Grown kept.old kept.new × Seen kept.new g.0 }
{
    let at = g.0 as usize;
    if kept.called[at] != 0 {
        return;
    }
    let root = decoded::root(design.cells, g);
    let mut set = [0u64; 8];
    let mask = node_walk(design, g, root, 0, kept, &mut set);
    kept.calls[at] = set;
    kept.called[at] = mask | 1;
}
