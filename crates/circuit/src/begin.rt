// The state that a start makes, in the lent arrays.
ghost use Rattle.std.specs.Prelude.{◌≡◌, ℕ, List, slice_index};
ghost use Rattle.table.specs.Bytes.{functions, nodes};
ghost use Rattle.rules.specs.Arithmetic.{keep_all, arithmetic};
ghost use Rattle.rules.specs.State.{fill};
ghost use Rattle.rules.specs.Circuit.{opening, start_of};
ghost use Rattle.table.specs.Check.{accepted};
ghost use Rattle.list.specs.Tags.{check_with, missing, found};
ghost use Rattle.circuit.specs.Meaning.{OpenedAs, state_as};
ghost use Rattle.table.specs.Working.{IsFunction, Taken};

use crate::{store, widths};
use table::{Function, Node, Reason, Refusal, read};

// An argument, 0 past the last one.
fn argument(args: &[u32], i: usize) -> u32
    ensures { result ≡ slice_index args.now i }
{
    args.get(i).copied().unwrap_or(0)
}

// Main's registers hold what it keeps of the arguments.
fn fill_main(table: &[u8], registers: &mut [u32; 256], main: Function, args: &[u32])
    requires { Taken table.now × IsFunction table.now main.0 }
    ensures { registers.new
        ≡ fill main.0 (keep_all (arithmetic table.now) main.0 args.now) registers.old }
{
    let f = main.0 as usize;
    let base = 8 * (f - 1);
    let width = read::width(table, main);
    for i in 0..8 {
        registers[base + i] = widths::cut(width as u16, argument(args, i));
    }
}

// 11, then 26 at the call that the tags lack, then the start.
pub(crate) fn start(
    table: &[u8],
    status: &mut [u8; 512],
    second: &mut [bool; 512],
    value: &mut [u32; 512],
    registers: &mut [u32; 256],
    occupant: &mut [u16; 32],
    args: &[u32],
    lacking: Option<Node>,
) -> Result<(), Refusal>
    requires { Taken table.now }
    ensures { (tags : List ℕ) → check_with table.now tags
        ≡ accepted (functions table.now) (nodes table.now)
        → lacking ≡ found (missing table.now tags)
        → OpenedAs
        (state_as status.old second.old value.old registers.old occupant.old)
        result (state_as status.new second.new value.new registers.new occupant.new)
        (start_of table.now tags args.now) }
{
    let main = read::functions(table);
    let count = read::params(table, main);
    if args.len() != count as usize {
        return Err(Reason::Arguments.into());
    }
    if let Some(place) = lacking {
        return Err(Refusal {
            reason: Reason::Untagged,
            place,
        });
    }
    open_main(table, status, second, value, registers, occupant, args);
    Ok(())
}

// All zero but main's registers and root.
fn open_main(
    table: &[u8],
    status: &mut [u8; 512],
    second: &mut [bool; 512],
    value: &mut [u32; 512],
    registers: &mut [u32; 256],
    occupant: &mut [u16; 32],
    args: &[u32],
)
    requires { Taken table.now }
    ensures { state_as status.new second.new value.new registers.new occupant.new
        ≡ opening table.now args.now }
{
    let main = read::functions(table);
    let root = read::root(table, main);
    *status = [0u8; 512];
    *second = [false; 512];
    *value = [0u32; 512];
    *registers = [0u32; 256];
    *occupant = [0u16; 32];
    store::set_status(status, root, 1);
    fill_main(table, registers, main, args);
}
