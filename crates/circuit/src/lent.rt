// The circuit's entries on a state that is lent as its five arrays, the runs with a lent count beside it: a step is made in place, and a
// refusal leaves what is lent as it is.
ghost use Rattle.std.specs.Prelude.{◌≡◌};
ghost use Rattle.rules.specs.Circuit.{start_of, step_of};
ghost use Rattle.rules.specs.First.{query_of};
ghost use Rattle.circuit.specs.Meaning.{OpenedAs, state_as, stepped_as, RanLent, found_of, DrivenLent};

use crate::types::{Answer, Ended};
use crate::{admission, begin, budget, entries};
use table::decoded::Decoded;
use table::{Node, Refusal};

// The circuit's start: the table, its tags, 11, 26; then main's registers hold the arguments and its root is open, all else is zero.
pub fn start(
    table: &[u8],
    tags: &[u8],
    status: &mut [u8; 512],
    second: &mut [bool; 512],
    value: &mut [u32; 512],
    registers: &mut [u32; 256],
    occupant: &mut [u16; 32],
    args: &[u32],
) -> Result<(), Refusal>
    ensures { OpenedAs
        (state_as status.old second.old value.old registers.old occupant.old)
        result (state_as status.new second.new value.new registers.new occupant.new)
        (start_of table.now tags.now args.now) }
{
    let told = list::check_coverage(table, tags)?;
    begin::start(
        table,
        status,
        second,
        value,
        registers,
        occupant,
        args,
        told.missing,
    )
}

// A step asked at node n: the table, its tags, 12, 24, 20, then 21 to 23.
pub fn step(
    table: &[u8],
    tags: &[u8],
    status: &mut [u8; 512],
    second: &mut [bool; 512],
    value: &mut [u32; 512],
    registers: &mut [u32; 256],
    occupant: &mut [u16; 32],
    n: Node,
) -> Answer
    ensures { stepped_as result
        (state_as status.new second.new value.new registers.new occupant.new)
        ≡ step_of table.now tags.now
        (state_as status.old second.old value.old registers.old occupant.old)
        n.0 }
{
    let mut cells = [0u16; 3270];
    match admission::read_in(table, tags, &mut cells) {
        Err(refusal) => Answer::Refused(refusal.reason, refusal.place),
        Ok(_) => {
            let design = Decoded {
                table,
                cells: &cells,
            };
            entries::step(&design, tags, status, second, value, registers, occupant, n)
        }
    }
}

// Steps asked at a list of nodes, up to the first refusal; the table, its tags and 24 are checked before the first of them. `count` gets
// the steps taken, and keeps its content where one of these three refuses.
pub fn run(
    table: &[u8],
    tags: &[u8],
    status: &mut [u8; 512],
    second: &mut [bool; 512],
    value: &mut [u32; 512],
    registers: &mut [u32; 256],
    occupant: &mut [u16; 32],
    nodes: &[u16],
    count: &mut usize,
) -> Result<(), Refusal>
    ensures { RanLent table.now tags.now
        (state_as status.old second.old value.old registers.old occupant.old)
        nodes.now count.old result
        (state_as status.new second.new value.new registers.new occupant.new)
        count.new }
{
    let mut cells = [0u16; 3270];
    admission::admit(table, tags, status, occupant, &mut cells)?;
    let design = Decoded {
        table,
        cells: &cells,
    };
    entries::run(
        &design, tags, status, second, value, registers, occupant, nodes, count,
    )
}

// The first possible step, or none: the table, its tags and 24 are checked first.
pub fn query(
    table: &[u8],
    tags: &[u8],
    status: &[u8; 512],
    second: &[bool; 512],
    value: &[u32; 512],
    registers: &[u32; 256],
    occupant: &[u16; 32],
) -> Result<Option<Node>, Refusal>
    ensures { found_of result ≡ query_of table.now tags.now
        (state_as status.now second.now value.now registers.now occupant.now) }
{
    let mut cells = [0u16; 3270];
    admission::admit(table, tags, status, occupant, &mut cells)?;
    let design = Decoded {
        table,
        cells: &cells,
    };
    Ok(budget::query(&design, tags, status, second, value, registers, occupant))
}

// The first possible step, again and again, up to a budget: the table, its tags and 24 are checked first. `count` as in a run over a list.
pub fn drive(
    table: &[u8],
    tags: &[u8],
    status: &mut [u8; 512],
    second: &mut [bool; 512],
    value: &mut [u32; 512],
    registers: &mut [u32; 256],
    occupant: &mut [u16; 32],
    budget: u32,
    count: &mut u32,
) -> Result<Ended, Refusal>
    ensures { DrivenLent table.now tags.now
        (state_as status.old second.old value.old registers.old occupant.old) budget
        count.old result
        (state_as status.new second.new value.new registers.new occupant.new)
        count.new }
{
    let mut cells = [0u16; 3270];
    admission::admit(table, tags, status, occupant, &mut cells)?;
    let design = Decoded {
        table,
        cells: &cells,
    };
    Ok(budget::drive(
        &design, tags, status, second, value, registers, occupant, budget, count,
    ))
}
