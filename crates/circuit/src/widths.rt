// What a function keeps of a value that it computes, is handed or takes from a callee: the bits of its width.
ghost use Rattle.std.specs.Prelude.{◌≡◌, ◌≤◌};
ghost use Rattle.table.specs.Bundle.{bytes};
ghost use Rattle.table.specs.Working.{IsFunction};
ghost use Rattle.rules.specs.Arithmetic.{narrow, arithmetic};

use table::decoded::Decoded;
use table::{Function, decoded};

// The lowest bits of a value, as many as a width has.
pub(crate) fn cut(width: u16, v: u32) -> u32
    requires { width ≤ 32 }
    ensures { result ≡ narrow width v }
{
    let over = 1u64 << width;
    ((v as u64) % over) as u32
}

pub(crate) fn keep(design: &Decoded, f: Function, v: u32) -> u32
    requires { IsFunction (bytes design.now) f.0 }
    ensures { result ≡ (arithmetic (bytes design.now)).keep f.0 v }
{
    cut(decoded::width(design.cells, f), v)
}
