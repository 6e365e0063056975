// The sets of a run: what a node is in, filled from a state and changed node by node or function by function.
ghost use Rattle.std.specs.Prelude.{◌≡◌, ℕ, ◌-◌, ◌≤◌, Bool, List, ◌==◌, replicate};
ghost use Rattle.table.specs.Bundle.{bytes};
ghost use Rattle.table.specs.Pick.{pick};
ghost use Rattle.table.specs.Bytes.{nodes};
ghost use Rattle.table.specs.Naming.{chain};
ghost use Rattle.table.specs.Working.{IsNode, IsFunction};
ghost use Rattle.list.specs.Tags.{is_call};
ghost use Rattle.list.specs.Working.{packed};
ghost use Rattle.rules.specs.State.{In};
ghost use Rattle.rules.specs.Circuit.{act_of};
ghost use Rattle.rules.specs.Sets.{sets_of, sort};
ghost use Rattle.circuit.specs.Meaning.{state_as};
ghost use Rattle.circuit.specs.Working.{leading, opens, sort_of};
ghost use Rattle.circuit.specs.Packed.{Packs, sets_as, unpacked, RowedTo, Rowed, Tracks, Places, Arms, Renews};

use crate::sets::{Rows, Set, Sets};
use crate::sorts::Ready;
use crate::{chain, sets, sorts, store};
use table::decoded::Decoded;
use table::{Function, Node, decoded};

// Whether node n is a call of another function.
fn is_call(design: &Decoded, n: Node) -> bool
    requires { IsNode (bytes design.now) n.0 }
    ensures { result ≡ is_call (bytes design.now) n.0 }
{
    if decoded::kind(design.cells, n) == 4 {
        return decoded::callee(design.cells, n) != decoded::owner(design.cells, n);
    }
    false
}

// Whether it is one and its callee is occupied.
pub(crate) fn barred(design: &Decoded, occupant: &[u16; 32], n: Node) -> bool
    requires { IsNode (bytes design.now) n.0 }
    ensures { (a : List ℕ) (b : List Bool) (c d : List ℕ) → result
        ≡ (sets_of (bytes design.now) (state_as a b c d occupant.now)).held n.0 }
{
    if is_call(design, n) {
        return store::occupant_at(occupant, decoded::callee(design.cells, n)).0 != 0;
    }
    false
}

// Whether it is one, busy and in its second phase.
fn entered(design: &Decoded, status: &[u8; 512], second: &[bool; 512], n: Node) -> bool
    requires { IsNode (bytes design.now) n.0 }
    ensures { (c d e : List ℕ) → result
        ≡ (sets_of (bytes design.now) (state_as status.now second.now c d e)).inside n.0 }
{
    if store::second_at(second, n) {
        if store::status_at(status, n) == 2 {
            return is_call(design, n);
        }
    }
    false
}

// Reads node n anew, and tells whether it has a step.
pub(crate) fn read_anew(
    design: &Decoded,
    status: &[u8; 512],
    second: &[bool; 512],
    value: &[u32; 512],
    sets: &mut Sets,
    n: Node,
) -> Ready
    requires { IsNode (bytes design.now) n.0 }
    ensures { ((d e : List ℕ) → sort_of result ≡ sort (act_of (bytes design.now)
        (state_as status.now second.now value.now d e) n.0))
        × ((d e : List ℕ)
        → let x = sets_of (bytes design.now) (state_as status.now second.now value.now d e) in
        Places n.0 (x.armed n.0) (x.waiting n.0) (x.inside n.0) (unpacked sets.old) (unpacked sets.new))
        × (sets.new.held ≡ sets.old.held) }
{
    let k = sorts::sort_at(design, status, second, value, n);
    let i = entered(design, status, second, n);
    sets.place(n, k == Ready::Yes, k == Ready::IfFree, i);
    k
}

// The node at c and all that follow it are open, of a let (defs) all but the last.
fn arm_all(design: &Decoded, sets: &mut Sets, c: Node, defs: bool)
    requires { (c.0 ≤ nodes (bytes design.now)) }
    ensures { Arms (λ m. In m (leading defs (chain (bytes design.now) c.0))) (unpacked sets.old) (unpacked sets.new)
        × (sets.new.held ≡ sets.old.held) }
{
    let mut at = c;
    while at.0 != 0 {
        let on = decoded::next(design.cells, at);
        if chain::ends(on, defs) {
            return;
        }
        sets.place(at, true, false, false);
        at = on;
    }
}

// The children that node n opens are open.
pub(crate) fn arm(design: &Decoded, sets: &mut Sets, n: Node)
    requires { IsNode (bytes design.now) n.0 }
    ensures { Arms (λ m. In m (opens (bytes design.now) n.0)) (unpacked sets.old) (unpacked sets.new)
        × (sets.new.held ≡ sets.old.held) }
{
    let kind = decoded::kind(design.cells, n);
    let c = decoded::first(design.cells, n);
    if kind == 5 {
        sets.place(c, true, false, false);
        return;
    }
    arm_all(design, sets, c, kind == 6);
}

// Function g is as new, and entered by node n if that does so anew.
pub(crate) fn renew(
    design: &Decoded,
    rows: &Rows,
    sets: &mut Sets,
    n: Node,
    g: Function,
    anew: bool,
)
    requires { IsNode (bytes design.now) n.0 × IsFunction (bytes design.now) g.0 × Rowed (bytes design.now) rows.now }
    ensures { Renews (bytes design.now) n.0 g.0 anew (unpacked sets.old) (unpacked sets.new) }
{
    let f = g.0 as usize;
    let own = sets::row(rows, f);
    let sites = sets::row(rows, 32 + f);
    let callers = sets::common(&sets.inside, &sites);
    sets::lose(&mut sets.armed, &own);
    sets::lose(&mut sets.armed, &callers);
    sets::lose(&mut sets.waiting, &own);
    sets::lose(&mut sets.inside, &own);
    sets::mark(&mut sets.armed, decoded::root(design.cells, g), true);
    if anew {
        sets::mark(&mut sets.waiting, n, false);
        sets::mark(&mut sets.inside, n, true);
        sets::gain(&mut sets.held, &sites);
    }
}

// Puts node n into the rows of its function and, where it is a call, of its callee; it is held while that is occupied.
fn enlist(design: &Decoded, occupant: &[u16; 32], rows: &mut Rows, held: &mut Set, n: Node)
    requires { IsNode (bytes design.now) n.0 × RowedTo (bytes design.now) (n.0 - 1) rows.old }
    ensures { RowedTo (bytes design.now) n.0 rows.new
        × ((a : List ℕ) (b : List Bool) (c d : List ℕ) → Packs (λ m. pick (n.0 == m)
        ((sets_of (bytes design.now) (state_as a b c d occupant.now)).held n.0)
        (packed held.old m)) held.new) }
{
    sets::mark(held, n, barred(design, occupant, n));
    let f = decoded::owner(design.cells, n);
    sets::put_at(rows, f.0 as usize, n);
    if is_call(design, n) {
        let g = decoded::callee(design.cells, n);
        sets::put_at(rows, 32 + g.0 as usize, n);
    }
}

// The rows of a table and the sets of a state: lent empty and filled in place, since handed back they would be copied.
pub(crate) fn fill(
    design: &Decoded,
    status: &[u8; 512],
    second: &[bool; 512],
    value: &[u32; 512],
    occupant: &[u16; 32],
    rows: &mut Rows,
    sets: &mut Sets,
)
    requires { (rows.old ≡ replicate 520 0)
        × (unpacked sets.old ≡ sets_as (replicate 8 0) (replicate 8 0) (replicate 8 0) (replicate 8 0)) }
    ensures { Rowed (bytes design.now) rows.new
        × ((d : List ℕ) → Tracks (bytes design.now) (state_as status.now second.now value.now d occupant.now) (unpacked sets.new)) }
{
    let last = decoded::last(design.cells);
    for n in 1..=last.0 {
        enlist(design, occupant, rows, &mut sets.held, Node(n));
        read_anew(design, status, second, value, sets, Node(n));
    }
}
