// The operations of a primitive: 32-bit, add, subtract and double wrap.
ghost use Rattle.std.specs.Prelude.{◌≡◌, [], ◌∷◌};
ghost use Rattle.rules.specs.Operations.{operate};

// Of two values; `last` is what beside gives. At most three operations to a range: from four on LLVM would put a table of jumps into
// read-only memory (document 02, Q-4).
pub(crate) fn of_two(op: u16, x: u32, y: u32, last: u32) -> u32
    ensures { result ≡ operate op (x ∷ (y ∷ (last ∷ []))) }
{
    match op {
        0..=1 => match op {
            0 => x.wrapping_add(y),
            _ => x.wrapping_sub(y),
        },
        2..=4 => match op {
            2 => x & y,
            3 => x | y,
            _ => x ^ y,
        },
        5..=7 => match op {
            5 => x.wrapping_add(x),
            6 => x / 2,
            _ => x % 2,
        },
        8..=9 => match op {
            8 => u32::from(x == y),
            _ => u32::from(x < y),
        },
        _ => last,
    }
}
