// A single step and a run over a list, of a table and tags that were checked.
ghost use Rattle.table.specs.Bundle.{bytes};
ghost use Rattle.std.specs.Prelude.{◌≡◌};
ghost use Rattle.rules.specs.Circuit.{circuit_of};
ghost use Rattle.rules.specs.Runs.{run_from};
ghost use Rattle.circuit.specs.Meaning.{state_as, stepped_as};
ghost use Rattle.circuit.specs.Working.{Stands, Agreed, ran_as};

use crate::types::Answer;
use crate::{groups, standing, turn};
use table::decoded::Decoded;
use table::{Node, Reason, Refusal, decoded};

// 12, 24, then the rest.
pub(crate) fn step(
    design: &Decoded,
    tags: &[u8],
    status: &mut [u8; 512],
    second: &mut [bool; 512],
    value: &mut [u32; 512],
    registers: &mut [u32; 256],
    occupant: &mut [u16; 32],
    n: Node,
) -> Answer
    ensures { stepped_as result
        (state_as status.new second.new value.new registers.new occupant.new)
        ≡ circuit_of (bytes design.now) tags.now
        (state_as status.old second.old value.old registers.old occupant.old)
        n.0 }
{
    if n.0 == 0 {
        return Answer::Refused(Reason::NoNode, Node(0));
    }
    let last = decoded::last(design.cells);
    if last.0 < n.0 {
        return Answer::Refused(Reason::NoNode, Node(0));
    }
    if standing::strays(design, status, occupant) {
        return Answer::Refused(Reason::Astray, Node(0));
    }
    turn::turn(
        design, tags, None, status, second, value, registers, occupant, n,
    )
}

// Steps one after the other, up to the first refusal; `count` gets how many were taken.
pub(crate) fn run(
    design: &Decoded,
    tags: &[u8],
    status: &mut [u8; 512],
    second: &mut [bool; 512],
    value: &mut [u32; 512],
    registers: &mut [u32; 256],
    occupant: &mut [u16; 32],
    nodes: &[u16],
    count: &mut usize,
) -> Result<(), Refusal>
    requires { Agreed (bytes design.now) tags.now
        × Stands (bytes design.now) (state_as status.old second.old value.old registers.old occupant.old) }
    ensures { ran_as result count.new
        (state_as status.new second.new value.new registers.new occupant.new)
        ≡ run_from (bytes design.now) tags.now
        (state_as status.old second.old value.old registers.old occupant.old)
        nodes.now }
{
    let groups = groups::group(design);
    for (i, n) in nodes.iter().enumerate() {
        let answer = turn::turn(
            design,
            tags,
            Some(&groups),
            status,
            second,
            value,
            registers,
            occupant,
            Node(*n),
        );
        if let Answer::Refused(reason, place) = answer {
            *count = i;
            return Err(Refusal { reason, place });
        }
    }
    *count = nodes.len();
    Ok(())
}
