// The query and the run with a budget, of a table and tags that were checked and a state that passed 24.
ghost use Rattle.table.specs.Bundle.{bytes};
ghost use Rattle.std.specs.Prelude.{◌≡◌, ◌≤◌};
ghost use Rattle.rules.specs.First.{first_of, found_at, drive_from};
ghost use Rattle.circuit.specs.Meaning.{found_of, ended_of, state_as};
ghost use Rattle.circuit.specs.Working.{Agreed, Stands, driven_as};
ghost use Rattle.circuit.specs.Packed.{unpacked};
ghost use Rattle.circuit.specs.Following.{stands_at};

use crate::sets::Sets;
use crate::types::Ended;
use crate::{groups, steps, store, tracking, turn};
use table::decoded::Decoded;
use table::{Node, decoded};

// None once main's root is done, else the first node that has a step.
pub(crate) fn query(
    design: &Decoded,
    tags: &[u8],
    status: &[u8; 512],
    second: &[bool; 512],
    value: &[u32; 512],
    registers: &[u32; 256],
    occupant: &[u16; 32],
) -> Option<Node>
    requires { Agreed (bytes design.now) tags.now
        × Stands (bytes design.now) (state_as status.now second.now value.now registers.now occupant.now) }
    ensures { found_of (Ok result) ≡ found_at (first_of (bytes design.now) tags.now
        (state_as status.now second.now value.now registers.now occupant.now)) }
{
    let top = turn::top(design);
    if store::status_at(status, top) == 3 {
        return None;
    }
    let last = decoded::last(design.cells);
    for n in 1..=last.0 {
        let n = Node(n);
        if turn::why_not(design, tags, status, second, value, occupant, n).is_none() {
            return Some(n);
        }
    }
    None
}

// How the run stands: answered, then at rest, then spent.
fn end_of(status: &[u8; 512], value: &[u32; 512], sets: &Sets, top: Node) -> Ended
    requires { (1 ≤ top.0) × (top.0 ≤ 512) }
    ensures { ended_of (Ok result) ≡ stands_at status.now value.now top.0 (unpacked sets.now) }
{
    if store::status_at(status, top) == 3 {
        return Ended::Answered(store::value_at(value, top));
    }
    match sets.first() {
        None => Ended::AtRest,
        Some(_) => Ended::Spent,
    }
}

// The first possible step, again and again, as often as the budget says at most; `count` gets how often.
pub(crate) fn drive(
    design: &Decoded,
    tags: &[u8],
    status: &mut [u8; 512],
    second: &mut [bool; 512],
    value: &mut [u32; 512],
    registers: &mut [u32; 256],
    occupant: &mut [u16; 32],
    budget: u32,
    count: &mut u32,
) -> Ended
    requires { Agreed (bytes design.now) tags.now
        × Stands (bytes design.now) (state_as status.old second.old value.old registers.old occupant.old) }
    ensures { driven_as result count.new
        (state_as status.new second.new value.new registers.new occupant.new)
        ≡ drive_from (bytes design.now) tags.now
        (state_as status.old second.old value.old registers.old occupant.old)
        budget }
{
    let groups = groups::group(design);
    let mut rows = [0u64; 520];
    let mut sets = Sets {
        armed: [0u64; 8],
        waiting: [0u64; 8],
        inside: [0u64; 8],
        held: [0u64; 8],
    };
    tracking::fill(
        design, status, second, value, occupant, &mut rows, &mut sets,
    );
    let top = turn::top(design);
    *count = steps::go(
        design, tags, &groups, &rows, &mut sets, status, second, value, registers, occupant, top,
        budget,
    );
    end_of(status, value, &sets, top)
}
