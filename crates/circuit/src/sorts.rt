// Whether a node has a step, read off its record and the state. Nothing is changed here.
ghost use Rattle.std.specs.Prelude.{◌≡◌, ℕ, ◌≤◌, true, not, ◌&&◌, List, ◌==◌, ◌≢◌};
ghost use Rattle.table.specs.Bundle.{bytes};
ghost use Rattle.table.specs.Pick.{pick};
ghost use Rattle.table.specs.Bytes.{kind, word};
ghost use Rattle.table.specs.Naming.{owner, children};
ghost use Rattle.table.specs.Working.{IsNode};
ghost use Rattle.rules.specs.State.{entry, In};
ghost use Rattle.rules.specs.Circuit.{act_of};
ghost use Rattle.rules.specs.Sets.{sort};
ghost use Rattle.circuit.specs.Meaning.{state_as};
ghost use Rattle.circuit.specs.Working.{each_done, gathers_at, sort_of};

use crate::{chain, store};
use table::decoded::Decoded;
use table::{Function, Node, decoded};

// Not, or once its callee is free, as a call that enters, or yes, as any other move.
#[derive(Clone, Copy, PartialEq, Eq)]
pub enum Ready {
    No,
    IfFree,
    Yes,
}

// Open nodes move; busy ones by kind.
pub(crate) fn sort_at(
    design: &Decoded,
    status: &[u8; 512],
    second: &[bool; 512],
    value: &[u32; 512],
    n: Node,
) -> Ready
    requires { IsNode (bytes design.now) n.0 }
    ensures { (d e : List ℕ) → sort_of result ≡ sort (act_of (bytes design.now)
        (state_as status.now second.now value.now d e) n.0) }
{
    let at = store::status_at(status, n);
    if at == 1 {
        return Ready::Yes;
    }
    if at != 2 {
        return Ready::No;
    }
    let kind = decoded::kind(design.cells, n);
    match kind {
        3 => once_all_done(design, status, n),
        4 => of_call(design, status, second, n),
        5 => of_if(design, status, second, value, n),
        6 => of_let(design, status, second, n),
        _ => Ready::No,
    }
}

// Whether n is a busy primitive or call in first phase, which waits for all of its children.
pub(crate) fn gathers(design: &Decoded, status: &[u8; 512], second: &[bool; 512], n: Node) -> bool
    requires { IsNode (bytes design.now) n.0 }
    ensures { result ≡ gathers_at (bytes design.now) status.now second.now n.0 }
{
    if store::status_at(status, n) != 2 {
        return false;
    }
    if store::second_at(second, n) {
        return false;
    }
    let kind = decoded::kind(design.cells, n);
    if kind == 3 {
        return true;
    }
    kind == 4
}

// Whether d is a node, and not done.
fn undone(status: &[u8; 512], d: Node) -> bool
    requires { d.0 ≤ 512 }
    ensures { result ≡ (not (d.0 == 0) && not (entry status.now 0 d.0 == 3)) }
{
    if d.0 == 0 {
        return false;
    }
    store::status_at(status, d) != 3
}

// Such a node, d being one of its children or 0: the others need not be looked at while that one is not done.
pub(crate) fn gathered(
    design: &Decoded,
    status: &[u8; 512],
    second: &[bool; 512],
    n: Node,
    d: Node,
) -> Ready
    requires { IsNode (bytes design.now) n.0
        × (gathers_at (bytes design.now) status.now second.now n.0 ≡ true)
        × ((d.0 ≢ 0) → IsNode (bytes design.now) d.0 × In d.0 (children (bytes design.now) n.0)) }
    ensures { (c d e : List ℕ) → sort_of result ≡ sort (act_of (bytes design.now)
        (state_as status.now second.now c d e) n.0) }
{
    if undone(status, d) {
        return Ready::No;
    }
    if decoded::kind(design.cells, n) == 3 {
        return once_all_done(design, status, n);
    }
    of_call(design, status, second, n)
}

// A move that waits for all children alone.
fn once_all_done(design: &Decoded, status: &[u8; 512], n: Node) -> Ready
    requires { IsNode (bytes design.now) n.0 }
    ensures { sort_of result ≡ pick (each_done (entry status.now 0) (children (bytes design.now) n.0)) 2 0 }
{
    let c = decoded::first(design.cells, n);
    if chain::all_done(design, status, c, false) {
        Ready::Yes
    } else {
        Ready::No
    }
}

// A self call is one whose callee is its own function: once the arguments are done.
fn of_call(design: &Decoded, status: &[u8; 512], second: &[bool; 512], n: Node) -> Ready
    requires { IsNode (bytes design.now) n.0 × (entry status.now 0 n.0 ≡ 2)
        × (kind (bytes design.now) n.0 ≡ 4) }
    ensures { (c d e : List ℕ) → sort_of result ≡ sort (act_of (bytes design.now)
        (state_as status.now second.now c d e) n.0) }
{
    let callee = decoded::callee(design.cells, n);
    if callee == decoded::owner(design.cells, n) {
        return once_all_done(design, status, n);
    }
    of_other(design, status, second, callee, n)
}

// Of another function g: in its second phase once g's root is done, in its first once the arguments are.
fn of_other(
    design: &Decoded,
    status: &[u8; 512],
    second: &[bool; 512],
    g: Function,
    n: Node,
) -> Ready
    requires { IsNode (bytes design.now) n.0 × (entry status.now 0 n.0 ≡ 2)
        × (kind (bytes design.now) n.0 ≡ 4) × (g.0 ≡ word (bytes design.now) n.0)
        × (word (bytes design.now) n.0 ≢ owner (bytes design.now) n.0) }
    ensures { (c d e : List ℕ) → sort_of result ≡ sort (act_of (bytes design.now)
        (state_as status.now second.now c d e) n.0) }
{
    if store::second_at(second, n) {
        return once_done(status, decoded::root(design.cells, g));
    }
    let c = decoded::first(design.cells, n);
    if chain::all_done(design, status, c, false) {
        Ready::IfFree
    } else {
        Ready::No
    }
}

// In the second phase once the branch is done, in the first once the condition is.
fn of_if(
    design: &Decoded,
    status: &[u8; 512],
    second: &[bool; 512],
    value: &[u32; 512],
    n: Node,
) -> Ready
    requires { IsNode (bytes design.now) n.0 × (entry status.now 0 n.0 ≡ 2)
        × (kind (bytes design.now) n.0 ≡ 5) }
    ensures { (d e : List ℕ) → sort_of result ≡ sort (act_of (bytes design.now)
        (state_as status.now second.now value.now d e) n.0) }
{
    let a = decoded::first(design.cells, n);
    if store::second_at(second, n) {
        return once_done(status, chain::branch(design, value, a));
    }
    once_done(status, a)
}

// In the second phase once the body is done, in the first once the definientia are.
fn of_let(design: &Decoded, status: &[u8; 512], second: &[bool; 512], n: Node) -> Ready
    requires { IsNode (bytes design.now) n.0 × (entry status.now 0 n.0 ≡ 2)
        × (kind (bytes design.now) n.0 ≡ 6) }
    ensures { (c d e : List ℕ) → sort_of result ≡ sort (act_of (bytes design.now)
        (state_as status.now second.now c d e) n.0) }
{
    let c = decoded::first(design.cells, n);
    if store::second_at(second, n) {
        return once_done(status, chain::last_of(design, c));
    }
    if chain::all_done(design, status, c, true) {
        Ready::Yes
    } else {
        Ready::No
    }
}

// A move that only waits for node r.
fn once_done(status: &[u8; 512], r: Node) -> Ready
    requires { r.0 ≤ 512 }
    ensures { sort_of result ≡ pick (entry status.now 0 r.0 == 3) 2 0 }
{
    if store::status_at(status, r) == 3 {
        Ready::Yes
    } else {
        Ready::No
    }
}
