// Steps are taken here and nowhere else: one at a node, or the first possible one again and again, for which the sets are kept.
ghost use Rattle.std.specs.Prelude.{◌≡◌, ◌≤◌, true, not, ◌&&◌, ◌==◌, nat_lt};
ghost use Rattle.table.specs.Bundle.{bytes};
ghost use Rattle.table.specs.Working.{IsNode};
ghost use Rattle.rules.specs.State.{entry};
ghost use Rattle.rules.specs.Circuit.{act_of};
ghost use Rattle.rules.specs.Sets.{goes};
ghost use Rattle.circuit.specs.Meaning.{state_as};
ghost use Rattle.circuit.specs.Working.{Grouped, GroupedIf, Planned, performed};
ghost use Rattle.circuit.specs.Packed.{unpacked};
ghost use Rattle.circuit.specs.Following.{Followed, Follows};

use crate::groups::Groups;
use crate::plan::Plan;
use crate::sets::{Rows, Sets};
use crate::{changes, moves, plan, store};
use table::Node;
use table::decoded::Decoded;

// The step of node n, which has one, and what it was. Part of each loop that takes steps, so that LLVM makes one function of a loop and all
// that a step calls.
#[inline(always)]
pub(crate) fn take(
    design: &Decoded,
    groups: Option<&Groups>,
    status: &mut [u8; 512],
    second: &mut [bool; 512],
    value: &mut [u32; 512],
    registers: &mut [u32; 256],
    occupant: &mut [u16; 32],
    n: Node,
) -> Plan
    requires { IsNode (bytes design.now) n.0 × GroupedIf (bytes design.now) groups
        × (goes (act_of (bytes design.now) (state_as status.old second.old value.old registers.old occupant.old) n.0) ≡ true) }
    ensures { Planned (bytes design.now) (state_as status.old second.old value.old registers.old occupant.old) n.0 result
        × (state_as status.new second.new value.new registers.new occupant.new
        ≡ performed (bytes design.now) (state_as status.old second.old value.old registers.old occupant.old) n.0 result) }
{
    let plan = plan::plan_at(design, status, second, value, registers, n);
    changes::perform(
        design, groups, status, second, value, registers, occupant, n, plan,
    );
    plan
}

// Whether the budget isn't spent, and main's root isn't done.
fn going(status: &[u8; 512], top: Node, taken: u32, budget: u32) -> bool
    requires { (1 ≤ top.0) × (top.0 ≤ 512) }
    ensures { result ≡ (nat_lt taken budget && not (entry status.now 0 top.0 == 3)) }
{
    if taken < budget {
        return store::status_of(status, top) != 3;
    }
    false
}

// The first possible step again and again, up to the budget, to main's root done, or to where there is none. It tells how many were taken.
// The tags are told of and not read.
pub(crate) fn go(
    design: &Decoded,
    tags: &[u8],
    groups: &Groups,
    rows: &Rows,
    sets: &mut Sets,
    status: &mut [u8; 512],
    second: &mut [bool; 512],
    value: &mut [u32; 512],
    registers: &mut [u32; 256],
    occupant: &mut [u16; 32],
    top: Node,
    budget: u32,
) -> u32
    requires { Grouped (bytes design.now) groups.now × (1 ≤ top.0) × (top.0 ≤ 512)
        × Follows (bytes design.now) tags.now top.0 rows.now
        (state_as status.old second.old value.old registers.old occupant.old) (unpacked sets.old) }
    ensures { Followed (bytes design.now) tags.now top.0 budget result
        (state_as status.old second.old value.old registers.old occupant.old)
        (state_as status.new second.new value.new registers.new occupant.new) (unpacked sets.new) }
{
    let mut first = sets.first();
    let mut taken: u32 = 0;
    while let Some(n) = first {
        if !going(status, top, taken, budget) {
            return taken;
        }
        let plan = take(
            design,
            Some(groups),
            status,
            second,
            value,
            registers,
            occupant,
            n,
        );
        taken += 1;
        first = moves::follow(design, rows, sets, status, second, value, n, plan);
    }
    taken
}
