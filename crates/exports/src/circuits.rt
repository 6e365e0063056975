// The circuit's entries as C functions: the state is lent as five arrays.
ghost use Rattle.std.specs.Prelude.{◌≡◌};
ghost use Rattle.rules.specs.Circuit.{start_of, step_of};
ghost use Rattle.rules.specs.First.{query_of};
ghost use Rattle.circuit.specs.Meaning.{state_as};
ghost use Rattle.exports.specs.Answers.{found_code, StartTold, StepTold, RunTold, DriveTold};

use crate::codes;
use circuit::lent;
use table::Node;

// Starts the circuit; refused, the state stays as it was.
#[unsafe(no_mangle)]
pub extern "C" fn circuit_start(
    table: &[u8],
    tags: &[u8],
    status: &mut [u8; 512],
    second: &mut [bool; 512],
    value: &mut [u32; 512],
    registers: &mut [u32; 256],
    occupant: &mut [u16; 32],
    args: &[u32],
) -> u64
    ensures { StartTold (start_of table.now tags.now args.now)
        (state_as status.old second.old value.old registers.old occupant.old)
        result (state_as status.new second.new value.new registers.new occupant.new) }
{
    lent::start(
        table, tags, status, second, value, registers, occupant, args,
    )
    .map_or_else(codes::refusal, |_| 0)
}

// A step asked at a node.
#[unsafe(no_mangle)]
pub extern "C" fn circuit_step(
    table: &[u8],
    tags: &[u8],
    status: &mut [u8; 512],
    second: &mut [bool; 512],
    value: &mut [u32; 512],
    registers: &mut [u32; 256],
    occupant: &mut [u16; 32],
    node: u16,
) -> u64
    ensures { StepTold (step_of table.now tags.now
        (state_as status.old second.old value.old registers.old occupant.old) node)
        result (state_as status.new second.new value.new registers.new occupant.new) }
{
    codes::answer(lent::step(
        table,
        tags,
        status,
        second,
        value,
        registers,
        occupant,
        Node(node),
    ))
}

// Steps asked at a list of nodes up to the first refusal; their number goes to `count`, unless table, tags or 24 refuse.
#[unsafe(no_mangle)]
pub extern "C" fn circuit_run(
    table: &[u8],
    tags: &[u8],
    status: &mut [u8; 512],
    second: &mut [bool; 512],
    value: &mut [u32; 512],
    registers: &mut [u32; 256],
    occupant: &mut [u16; 32],
    nodes: &[u16],
    count: &mut usize,
) -> u64
    ensures { RunTold table.now tags.now
        (state_as status.old second.old value.old registers.old occupant.old)
        nodes.now count.old result count.new
        (state_as status.new second.new value.new registers.new occupant.new) }
{
    lent::run(
        table, tags, status, second, value, registers, occupant, nodes, count,
    )
    .map_or_else(codes::refusal, |_| 0)
}

// The first possible step, again and again, up to a budget; how many goes to `count`, unless table, tags or 24 refuse.
#[unsafe(no_mangle)]
pub extern "C" fn circuit_drive(
    table: &[u8],
    tags: &[u8],
    status: &mut [u8; 512],
    second: &mut [bool; 512],
    value: &mut [u32; 512],
    registers: &mut [u32; 256],
    occupant: &mut [u16; 32],
    budget: u32,
    count: &mut u32,
) -> u64
    ensures { DriveTold table.now tags.now
        (state_as status.old second.old value.old registers.old occupant.old) budget
        count.old result count.new
        (state_as status.new second.new value.new registers.new occupant.new) }
{
    lent::drive(
        table, tags, status, second, value, registers, occupant, budget, count,
    )
    .map_or_else(codes::refusal, codes::ended)
}

// The first possible step, or none.
#[unsafe(no_mangle)]
pub extern "C" fn circuit_query(
    table: &[u8],
    tags: &[u8],
    status: &[u8; 512],
    second: &[bool; 512],
    value: &[u32; 512],
    registers: &[u32; 256],
    occupant: &[u16; 32],
) -> u64
    ensures { result ≡ found_code (query_of table.now tags.now
        (state_as status.now second.now value.now registers.now occupant.now)) }
{
    lent::query(table, tags, status, second, value, registers, occupant).map_or_else(
        codes::refusal,
        codes::node,
    )
}
