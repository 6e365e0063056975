// After a move the sets are again those of the state, and tell the first node that has a step. Mostly it is known without a look at them:
// no node below the one that moved had a step, so a parent, a first child or a root that has one now is lower than any other that has.
ghost use Rattle.std.specs.Prelude.{◌≡◌, ℕ, ◌+◌, ◌*◌, ◌≤◌, true, false, not, ◌&&◌, ◌||◌, List, ◌==◌, ◌≢◌};
ghost use Rattle.table.specs.Bundle.{bytes};
ghost use Rattle.table.specs.Pick.{Range};
ghost use Rattle.table.specs.Bytes.{nodes, first};
ghost use Rattle.table.specs.Naming.{children};
ghost use Rattle.table.specs.Expressions.{expr_at};
ghost use Rattle.table.specs.Working.{IsNode, IsFunction, Taken};
ghost use Rattle.list.specs.Working.{packed};
ghost use Rattle.rules.specs.State.{State512, Sized, entry, In};
ghost use Rattle.rules.specs.Circuit.{act_of};
ghost use Rattle.rules.specs.Sets.{sort, holds, first_in, Stays};
ghost use Rattle.circuit.specs.Meaning.{state_as};
ghost use Rattle.circuit.specs.Working.{planned, Planned, performed, Sound, gathers_at, sort_of, calling};
ghost use Rattle.circuit.specs.Packed.{Packs, unpacked, Names, Rowed, Tracks};
ghost use Rattle.circuit.specs.Following.{ends, frees, Grows, Carries, Onward};
ghost use Rattle.circuit.specs.declared.plan.Plan.TheVariants as Plan;

use crate::plan::Plan;
use crate::sets::{Rows, Sets};
use crate::sorts::Ready;
use crate::{sets, sorts, store, tracking};
use table::decoded::Decoded;
use table::{Function, Node, decoded};

// Whether n is in first phase and has children.
fn is_fresh(design: &Decoded, second: &[bool; 512], n: Node) -> bool
    requires { IsNode (bytes design.now) n.0 }
    ensures { result ≡ (not (entry second.now false n.0) && not (first (bytes design.now) n.0 == 0)) }
{
    if store::second_at(second, n) {
        return false;
    }
    decoded::first(design.cells, n).0 != 0
}

// Node n has begun. In first phase it waits for the children that it opened.
fn begun(
    design: &Decoded,
    sets: &mut Sets,
    status: &[u8; 512],
    second: &[bool; 512],
    value: &[u32; 512],
    n: Node,
) -> Option<Node>
    requires { IsNode (bytes design.now) n.0 × Sound (bytes design.now) n.0 Plan.Begins
        × (n.0 ≡ first_in (unpacked sets.old) 512) }
    ensures { Onward (bytes design.now) n.0 Plan.Begins status.now second.now value.now (unpacked sets.old) result
        (unpacked sets.new) }
{
    tracking::arm(design, sets, n);
    if is_fresh(design, second, n) {
        sets::mark(&mut sets.armed, n, false);
        let c = decoded::first(design.cells, n);
        if c.0 == n.0 + 1 {
            return Some(c);
        }
        return None;
    }
    let k = tracking::read_anew(design, status, second, value, sets, n);
    if k == Ready::Yes {
        return Some(n);
    }
    None
}

// Node n has opened node m and is in second phase.
fn turned(
    design: &Decoded,
    sets: &mut Sets,
    status: &[u8; 512],
    second: &[bool; 512],
    value: &[u32; 512],
    n: Node,
    m: Node,
)
    requires { IsNode (bytes design.now) n.0 × IsNode (bytes design.now) m.0 }
    ensures { Carries (bytes design.now) n.0 (Plan.Turns m) status.now second.now value.now (unpacked sets.old) (unpacked sets.new) }
{
    sets.place(m, true, false, false);
    tracking::read_anew(design, status, second, value, sets, n);
}

// Function g is as new, entered or started again by node n.
#[inline(always)]
fn called(
    design: &Decoded,
    rows: &Rows,
    sets: &mut Sets,
    status: &[u8; 512],
    second: &[bool; 512],
    value: &[u32; 512],
    n: Node,
    g: Function,
    anew: bool,
) -> Option<Node>
    requires { IsNode (bytes design.now) n.0 × IsFunction (bytes design.now) g.0 × Rowed (bytes design.now) rows.now
        × (n.0 ≡ first_in (unpacked sets.old) 512) }
    ensures { Onward (bytes design.now) n.0 (calling g anew) status.now second.now
        value.now (unpacked sets.old) result
        (unpacked sets.new) }
{
    tracking::renew(design, rows, sets, n, g, anew);
    let r = decoded::root(design.cells, g);
    if r.0 <= n.0 {
        return Some(r);
    }
    None
}

// A callee that is left is free: the calls of it are held no longer. Whether one is.
fn free(table: &[u8], rows: &Rows, sets: &mut Sets, n: Node, plan: Plan) -> bool
    requires { Taken table.now × Sound table.now n.0 plan × Rowed table.now rows.now }
    ensures { (result ≡ frees plan) × ((m : ℕ) → Stays (unpacked sets.old) (unpacked sets.new) m)
        × ((value : List ℕ) (m : ℕ) → ends plan ≡ true → Range (nodes table.now) m → packed sets.new.held m
        ≡ holds (expr_at table.now) (unpacked sets.old) (planned table.now value n.0 plan) m) }
{
    if let Plan::Leaves(g, _) = plan {
        let sites = sets::row(rows, 32 + g.0 as usize);
        sets::lose(&mut sets.held, &sites);
        return true;
    }
    false
}

// The calls inside function f may leave it.
fn arm_callers(rows: &Rows, sets: &mut Sets, f: Function)
    requires { f.0 ≤ 32 }
    ensures { Packs (λ m. packed sets.old.armed m || (packed sets.old.inside m && packed rows.now (512 * (32 + f.0) + m)))
        sets.new.armed
        × (sets.new.waiting ≡ sets.old.waiting) × (sets.new.inside ≡ sets.old.inside) × (sets.new.held ≡ sets.old.held) }
{
    let sites = sets::row(rows, 32 + f.0 as usize);
    let callers = sets::common(&sets.inside, &sites);
    sets::gain(&mut sets.armed, &callers);
}

// Node p after its child n was done, which was in no set while p gathered its children; d is the next child.
fn lift(
    design: &Decoded,
    sets: &mut Sets,
    status: &[u8; 512],
    second: &[bool; 512],
    value: &[u32; 512],
    p: Node,
    d: Node,
) -> Ready
    requires { IsNode (bytes design.now) p.0
        × ((d.0 ≢ 0) → IsNode (bytes design.now) d.0 × In d.0 (children (bytes design.now) p.0)) }
    ensures { ((d e : List ℕ) → sort_of result ≡ sort (act_of (bytes design.now)
        (state_as status.now second.now value.now d e) p.0))
        × Grows p.0 (sort_of result) (gathers_at (bytes design.now) status.now second.now p.0) (unpacked sets.old) (unpacked sets.new)
        × (sets.new.held ≡ sets.old.held) }
{
    if !sorts::gathers(design, status, second, p) {
        let k = sorts::sort_at(design, status, second, value, p);
        sets::mark(&mut sets.armed, p, k == Ready::Yes);
        return k;
    }
    match sorts::gathered(design, status, second, p, d) {
        Ready::No => Ready::No,
        Ready::IfFree => {
            sets::mark(&mut sets.waiting, p, true);
            Ready::IfFree
        }
        Ready::Yes => {
            sets::mark(&mut sets.armed, p, true);
            Ready::Yes
        }
    }
}

// Whether d is open and has the number after that of n.
fn is_beside(status: &[u8; 512], n: Node, d: Node) -> bool
    requires { (n.0 ≤ 512) × (d.0 ≤ 512) }
    ensures { result ≡ (d.0 == n.0 + 1 && entry status.now 0 d.0 == 1) }
{
    if d.0 != n.0 + 1 {
        return false;
    }
    store::status_at(status, d) == 1
}

// Node n is done; where it is a root, the calls inside its function may leave.
fn ended(
    design: &Decoded,
    rows: &Rows,
    sets: &mut Sets,
    status: &[u8; 512],
    second: &[bool; 512],
    value: &[u32; 512],
    n: Node,
    plan: Plan,
) -> Option<Node>
    requires { IsNode (bytes design.now) n.0 × Sound (bytes design.now) n.0 plan × Rowed (bytes design.now) rows.now
        × (n.0 ≡ first_in (unpacked sets.old) 512) × (ends plan ≡ true) }
    ensures { Onward (bytes design.now) n.0 plan status.now second.now value.now (unpacked sets.old) result
        (unpacked sets.new) }
{
    let freed = free(design.table, rows, sets, n, plan);
    sets.place(n, false, false, false);
    let p = decoded::parent(design.cells, n);
    if p.0 == 0 {
        arm_callers(rows, sets, decoded::owner(design.cells, n));
        return None;
    }
    let d = decoded::next(design.cells, n);
    let k = lift(design, sets, status, second, value, p, d);
    if freed {
        return None;
    }
    if k == Ready::Yes {
        return Some(p);
    }
    if k == Ready::No {
        if is_beside(status, n, d) {
            return Some(d);
        }
    }
    None
}

// By the plan of node n, whose move was made: the first node that has a step now, if it is known. Both plans that end a node go one way: so
// LLVM makes one choice of this one and the one before it, in the loop.
#[inline(always)]
fn update(
    design: &Decoded,
    rows: &Rows,
    sets: &mut Sets,
    status: &[u8; 512],
    second: &[bool; 512],
    value: &[u32; 512],
    n: Node,
    plan: Plan,
) -> Option<Node>
    requires { IsNode (bytes design.now) n.0 × Sound (bytes design.now) n.0 plan × Rowed (bytes design.now) rows.now
        × (n.0 ≡ first_in (unpacked sets.old) 512) }
    ensures { Onward (bytes design.now) n.0 plan status.now second.now value.now (unpacked sets.old) result (unpacked sets.new) }
{
    match plan {
        Plan::Begins => begun(design, sets, status, second, value, n),
        Plan::Turns(m) => {
            turned(design, sets, status, second, value, n, m);
            None
        }
        Plan::Enters(g) => called(design, rows, sets, status, second, value, n, g, true),
        Plan::Restarts(f) => called(design, rows, sets, status, second, value, n, f, false),
        Plan::Finishes(_) | Plan::Leaves(_, _) => ended(
            design, rows, sets, status, second, value, n, plan,
        ),
    }
}

// The first node that has a step after the move of node n, which was the first one before it.
pub(crate) fn follow(
    design: &Decoded,
    rows: &Rows,
    sets: &mut Sets,
    status: &[u8; 512],
    second: &[bool; 512],
    value: &[u32; 512],
    n: Node,
    plan: Plan,
) -> Option<Node>
    requires { IsNode (bytes design.now) n.0 × Sound (bytes design.now) n.0 plan × Rowed (bytes design.now) rows.now
        × (n.0 ≡ first_in (unpacked sets.old) 512) }
    ensures { (d e : List ℕ) (s : State512) → Sized s → Planned (bytes design.now) s n.0 plan
        → state_as status.now second.now value.now d e ≡ performed (bytes design.now) s n.0 plan
        → Tracks (bytes design.now) s (unpacked sets.old)
        → Tracks (bytes design.now) (state_as status.now second.now value.now d e) (unpacked sets.new)
        × Names result (first_in (unpacked sets.new) 512) }
{
    match update(design, rows, sets, status, second, value, n, plan) {
        Some(first) => Some(first),
        None => sets.first(),
    }
}
