// What a step changes.
ghost use Rattle.std.specs.Prelude.{◌≡◌, ◌≤◌, false, [], map};
ghost use Rattle.table.specs.Bundle.{bytes};
ghost use Rattle.table.specs.Bytes.{nodes, root};
ghost use Rattle.table.specs.Naming.{owner, chain};
ghost use Rattle.table.specs.Working.{IsNode, IsFunction};
ghost use Rattle.rules.specs.Arithmetic.{keep_all, arithmetic};
ghost use Rattle.rules.specs.State.{entry, write, opened, clear, fill};
ghost use Rattle.rules.specs.Step.{mine};
ghost use Rattle.circuit.specs.Meaning.{state_as};
ghost use Rattle.circuit.specs.Working.{GroupedIf, opens, Planned, performed};

use crate::groups::Groups;
use crate::plan::Plan;
use crate::{chain, groups, store, widths};
use table::decoded::Decoded;
use table::{Function, Node, decoded};

// The registers of g, all zero.
fn blank(registers: &mut [u32; 256], g: Function)
    requires { (1 ≤ g.0) × (g.0 ≤ 32) }
    ensures { registers.new ≡ fill g.0 [] registers.old }
{
    let f = g.0 as usize;
    let base = 8 * (f - 1);
    registers[base..base + 8].fill(0);
}

// The registers of g: what it keeps of the values of the nodes from c on, then zeros.
fn give(design: &Decoded, value: &[u32; 512], registers: &mut [u32; 256], g: Function, c: Node)
    requires { IsFunction (bytes design.now) g.0 × (c.0 ≤ nodes (bytes design.now)) }
    ensures { registers.new
        ≡ fill g.0 (keep_all (arithmetic (bytes design.now)) g.0
        (map (entry value.now 0) (chain (bytes design.now) c.0))) registers.old }
{
    blank(registers, g);
    let f = g.0 as usize;
    let base = 8 * (f - 1);
    let mut at = c;
    for i in 0..8usize {
        if at.0 == 0 {
            return;
        }
        registers[base + i] = widths::keep(design, g, store::value_at(value, at));
        at = decoded::next(design.cells, at);
    }
}

// Busy, and the children that its kind opens are open.
fn begin(design: &Decoded, status: &mut [u8; 512], n: Node)
    requires { IsNode (bytes design.now) n.0 }
    ensures { status.new ≡ opened (write status.old n.0 2) (opens (bytes design.now) n.0) }
{
    let kind = decoded::kind(design.cells, n);
    let c = decoded::first(design.cells, n);
    store::set_status(status, n, 2);
    if kind == 5 {
        store::set_status(status, c, 1);
        return;
    }
    if kind == 6 {
        chain::open_all(design, status, c, true);
        return;
    }
    chain::open_all(design, status, c, false);
}

// Done with a value.
fn finish(status: &mut [u8; 512], second: &mut [bool; 512], value: &mut [u32; 512], n: Node, v: u32)
    requires { n.0 ≤ 512 }
    ensures { (status.new ≡ write status.old n.0 3)
        × (second.new ≡ write second.old n.0 false)
        × (value.new ≡ write value.old n.0 v) }
{
    store::set_status(status, n, 3);
    store::set_second(second, n, false);
    store::set_value(value, n, v);
}

// Function g from its root on, with the values of the nodes from c on as arguments; they are read before g's nodes are cleared.
fn reset(
    design: &Decoded,
    groups: Option<&Groups>,
    status: &mut [u8; 512],
    second: &mut [bool; 512],
    value: &mut [u32; 512],
    registers: &mut [u32; 256],
    g: Function,
    c: Node,
)
    requires { GroupedIf (bytes design.now) groups × IsFunction (bytes design.now) g.0
        × (c.0 ≤ nodes (bytes design.now)) }
    ensures { (status.new ≡ write (clear (mine (nodes (bytes design.now)) (owner (bytes design.now)) g.0) 0
        status.old) (root (bytes design.now) g.0) 1)
        × (second.new ≡ clear (mine (nodes (bytes design.now)) (owner (bytes design.now)) g.0) false second.old)
        × (value.new ≡ clear (mine (nodes (bytes design.now)) (owner (bytes design.now)) g.0) 0 value.old)
        × (registers.new
        ≡ fill g.0 (keep_all (arithmetic (bytes design.now)) g.0
        (map (entry value.old 0) (chain (bytes design.now) c.0))) registers.old) }
{
    give(design, value, registers, g, c);
    groups::clear_nodes(design, groups, g, status, second, value);
    let r = decoded::root(design.cells, g);
    store::set_status(status, r, 1);
}

// Makes the move of node n that is planned.
#[inline(always)]
pub(crate) fn perform(
    design: &Decoded,
    groups: Option<&Groups>,
    status: &mut [u8; 512],
    second: &mut [bool; 512],
    value: &mut [u32; 512],
    registers: &mut [u32; 256],
    occupant: &mut [u16; 32],
    n: Node,
    plan: Plan,
)
    requires { IsNode (bytes design.now) n.0 × GroupedIf (bytes design.now) groups
        × Planned (bytes design.now) (state_as status.old second.old value.old registers.old occupant.old) n.0 plan }
    ensures { state_as status.new second.new value.new registers.new occupant.new
        ≡ performed (bytes design.now)
        (state_as status.old second.old value.old registers.old occupant.old)
        n.0 plan }
{
    match plan {
        Plan::Begins => begin(design, status, n),
        Plan::Turns(m) => {
            store::set_status(status, m, 1);
            store::set_second(second, n, true);
        }
        Plan::Finishes(v) => finish(status, second, value, n, v),
        Plan::Enters(g) => {
            let c = decoded::first(design.cells, n);
            reset(design, groups, status, second, value, registers, g, c);
            store::set_second(second, n, true);
            store::set_occupant(occupant, g, n);
        }
        Plan::Restarts(f) => {
            let c = decoded::first(design.cells, n);
            reset(design, groups, status, second, value, registers, f, c);
        }
        Plan::Leaves(g, v) => {
            finish(status, second, value, n, v);
            store::set_occupant(occupant, g, Node(0));
        }
    }
}
