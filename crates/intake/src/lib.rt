// What the programs read with: a reader read to its end into a lent slice, and whether an argument is there.
// std's `read_to_end` allocates, and its `read_exact` does not say how far it came; `whole` does.
#![tactic(auto)]

ghost use Rattle.intake.specs.Given.{Given, count_of};
ghost use Rattle.std.specs.Io.KnownBytes.{Consumes, IsAtEnd};
ghost use Rattle.std.specs.declared.env.FillError.TheVariants.{NotPresent};
ghost use Rattle.std.specs.Prelude.{◌≡◌, ◌<◌, length, take, Err, IfOk, IsFalse, ◌↔◌};

use std::env::FillError;
use std::io::Read;

// A read failed, once so many bytes were put at the slice's start.
#[derive(Clone, Copy, PartialEq, Eq)]
pub struct ReadFailed {
    pub count: usize,
}

// Reads until the slice is full, the input ends or a read fails, and tells how many bytes were put at the slice's start.
pub fn whole<R: Read>(input: &mut R, room: &mut [u8]) -> Result<usize, ReadFailed>
    ensures given { Given result room.new }
    ensures taken { Consumes (R.remaining input.old) (R.remaining input.new) (take (count_of result) room.new) }
    ensures ended { IfOk result (λ count. count < length room.new → IsAtEnd (R.remaining input.new)) }
{
    let mut done: usize = 0;
    while done < room.len() {
        let Ok(more) = input.read(&mut room[done..]) else {
            return Err(ReadFailed { count: done });
        };
        if more == 0 {
            return Ok(done);
        }
        done += more;
    }
    Ok(done)
}

// Whether an argument is there, if only an empty one, by what was said when it was asked for.
pub fn is_given(said: Result<usize, FillError>) -> bool
    ensures { IsFalse result ↔ (said ≡ Err NotPresent) }
{
    !matches!(said, Err(FillError::NotPresent))
}
