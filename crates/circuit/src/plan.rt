// The move of a node that has one, read off its record and the state; nothing is changed here, and whether there is one is not asked again.
ghost use Rattle.std.specs.Prelude.{◌≡◌, ℕ, Bool, List, ◌≢◌};
ghost use Rattle.table.specs.Bundle.{bytes};
ghost use Rattle.table.specs.Bytes.{kind, word};
ghost use Rattle.table.specs.Naming.{owner};
ghost use Rattle.table.specs.Working.{IsNode};
ghost use Rattle.rules.specs.State.{entry};
ghost use Rattle.circuit.specs.Meaning.{state_as};
ghost use Rattle.circuit.specs.Working.{Plans};

use crate::{chain, store, widths};
use table::decoded::Decoded;
use table::{Function, Node, decoded};

// What a node does: it begins, opens another node, is done, enters its callee, starts its own function again, or leaves its callee.
// What a call hands over is read off the table when it moves.
#[derive(Clone, Copy)]
pub enum Plan {
    Begins,
    Turns(Node),
    Finishes(u32),
    Enters(Function),
    Restarts(Function),
    Leaves(Function, u32),
}

// By status.
#[inline(always)]
pub(crate) fn plan_at(
    design: &Decoded,
    status: &[u8; 512],
    second: &[bool; 512],
    value: &[u32; 512],
    registers: &[u32; 256],
    n: Node,
) -> Plan
    requires { IsNode (bytes design.now) n.0 }
    ensures { (e : List ℕ) → Plans (bytes design.now) (state_as status.now second.now value.now
        registers.now e) n.0 result }
{
    if store::status_at(status, n) == 1 {
        return of_open(design, value, registers, n);
    }
    of_busy(design, second, value, n)
}

// An open constant, parameter or bound is done, any other begins. Who has children begins, whatever its kind: most open nodes are told by
// that test alone.
fn of_open(design: &Decoded, value: &[u32; 512], registers: &[u32; 256], n: Node) -> Plan
    requires { IsNode (bytes design.now) n.0 }
    ensures { (a : List ℕ) (b : List Bool) (e : List ℕ) → entry a 0 n.0 ≡ 1
        → Plans (bytes design.now) (state_as a b value.now registers.now e) n.0 result }
{
    let c = decoded::first(design.cells, n);
    if c.0 != 0 {
        return Plan::Begins;
    }
    let kind = decoded::kind(design.cells, n);
    match kind {
        1 => Plan::Finishes(decoded::word(design.cells, n)),
        2 => {
            let f = decoded::owner(design.cells, n);
            let i = decoded::extra(design.cells, n);
            Plan::Finishes(store::register_at(registers, f, i))
        }
        7 => Plan::Finishes(store::value_at(value, decoded::definiens(design.cells, n))),
        _ => Plan::Begins,
    }
}

// A busy node, by kind; of no other kind is there a move.
fn of_busy(design: &Decoded, second: &[bool; 512], value: &[u32; 512], n: Node) -> Plan
    requires { IsNode (bytes design.now) n.0 }
    ensures { (a d e : List ℕ) → (entry a 0 n.0 ≢ 1)
        → Plans (bytes design.now) (state_as a second.now value.now d e) n.0 result }
{
    let kind = decoded::kind(design.cells, n);
    match kind {
        3 => of_primitive(design, value, n),
        4 => of_call(design, second, value, n),
        5 => of_if(design, second, value, n),
        6 => of_let(design, second, value, n),
        _ => Plan::Begins,
    }
}

// Done with what its function keeps of the result.
fn of_primitive(design: &Decoded, value: &[u32; 512], n: Node) -> Plan
    requires { IsNode (bytes design.now) n.0 × (kind (bytes design.now) n.0 ≡ 3) }
    ensures { (a : List ℕ) (b : List Bool) (d e : List ℕ) → entry a 0 n.0 ≡ 2
        → Plans (bytes design.now) (state_as a b value.now d e) n.0 result }
{
    let c = decoded::first(design.cells, n);
    let v = chain::operation(design, value, decoded::extra(design.cells, n), c);
    Plan::Finishes(widths::keep(design, decoded::owner(design.cells, n), v))
}

// A self call is one whose callee is its own function, and starts it again.
fn of_call(design: &Decoded, second: &[bool; 512], value: &[u32; 512], n: Node) -> Plan
    requires { IsNode (bytes design.now) n.0 × (kind (bytes design.now) n.0 ≡ 4) }
    ensures { (a d e : List ℕ) → entry a 0 n.0 ≡ 2
        → Plans (bytes design.now) (state_as a second.now value.now d e) n.0 result }
{
    let callee = decoded::callee(design.cells, n);
    let own = decoded::owner(design.cells, n);
    if callee == own {
        return Plan::Restarts(own);
    }
    of_other(design, second, value, callee, n)
}

// A call of another function g enters it, and in its second phase leaves it with what its own function keeps of the answer.
fn of_other(
    design: &Decoded,
    second: &[bool; 512],
    value: &[u32; 512],
    g: Function,
    n: Node,
) -> Plan
    requires { IsNode (bytes design.now) n.0 × (kind (bytes design.now) n.0 ≡ 4)
        × (g.0 ≡ word (bytes design.now) n.0) × (word (bytes design.now) n.0 ≢ owner (bytes design.now) n.0) }
    ensures { (a d e : List ℕ) → entry a 0 n.0 ≡ 2
        → Plans (bytes design.now) (state_as a second.now value.now d e) n.0 result }
{
    if store::second_at(second, n) {
        let r = decoded::root(design.cells, g);
        let v = store::value_at(value, r);
        return Plan::Leaves(g, widths::keep(design, decoded::owner(design.cells, n), v));
    }
    Plan::Enters(g)
}

// Opens the branch, and is done with its value in the second phase.
fn of_if(design: &Decoded, second: &[bool; 512], value: &[u32; 512], n: Node) -> Plan
    requires { IsNode (bytes design.now) n.0 × (kind (bytes design.now) n.0 ≡ 5) }
    ensures { (a d e : List ℕ) → entry a 0 n.0 ≡ 2
        → Plans (bytes design.now) (state_as a second.now value.now d e) n.0 result }
{
    let a = decoded::first(design.cells, n);
    let r = chain::branch(design, value, a);
    if store::second_at(second, n) {
        return Plan::Finishes(store::value_at(value, r));
    }
    Plan::Turns(r)
}

// Opens the body, and is done with its value in the second phase.
fn of_let(design: &Decoded, second: &[bool; 512], value: &[u32; 512], n: Node) -> Plan
    requires { IsNode (bytes design.now) n.0 × (kind (bytes design.now) n.0 ≡ 6) }
    ensures { (a d e : List ℕ) → entry a 0 n.0 ≡ 2
        → Plans (bytes design.now) (state_as a second.now value.now d e) n.0 result }
{
    let c = decoded::first(design.cells, n);
    let body = chain::last_of(design, c);
    if store::second_at(second, n) {
        return Plan::Finishes(store::value_at(value, body));
    }
    Plan::Turns(body)
}
