// Whether a state can be stepped at all (24): entries past N and F are not looked at.
ghost use Rattle.std.specs.Prelude.{◌≡◌};
ghost use Rattle.table.specs.Bundle.{bytes};
ghost use Rattle.table.specs.Bytes.{functions, nodes};
ghost use Rattle.rules.specs.Step.{over};
ghost use Rattle.circuit.specs.Working.{stray_in};

use table::decoded;
use table::decoded::Decoded;

// A status over 3: the highest is. The pass has no way out, so that the compiler takes many statuses at once.
fn odd_status(design: &Decoded, status: &[u8; 512]) -> bool
    ensures { result ≡ over 3 (nodes (bytes design.now)) status.now }
{
    let last = decoded::last(design.cells);
    let mut highest: u8 = 0;
    for s in &status[..last.0 as usize] {
        highest = highest.max(*s);
    }
    3 < highest
}

// An occupant over N.
fn odd_occupant(design: &Decoded, occupant: &[u16; 32]) -> bool
    ensures { result ≡ over (nodes (bytes design.now)) (functions (bytes design.now)) occupant.now }
{
    let last = decoded::last(design.cells);
    let main = decoded::main(design.cells);
    occupant[..main.0 as usize].iter().any(|n| last.0 < *n)
}

pub(crate) fn strays(design: &Decoded, status: &[u8; 512], occupant: &[u16; 32]) -> bool
    ensures { result ≡ stray_in (bytes design.now) status.now occupant.now }
{
    odd_status(design, status) || odd_occupant(design, occupant)
}
