// What the program is given: its arguments and the table file.
ghost use Rattle.std.specs.Prelude.{◌≡◌, ◌≤◌, length, IfSome};
ghost use Rattle.intake.specs.Given.{IsPrefixLen};

use std::env::Env;
use std::fs;
use std::rt::Files;

// A log of asked nodes, a run, or a run that tells its nodes.
#[derive(Clone, Copy, PartialEq, Eq)]
pub enum Form {
    Log,
    Run,
    Trace,
}

// Main's arguments from the front; a ninth stands for any count above 8.
#[derive(Clone, Copy)]
pub struct Arguments {
    pub values: [u32; 9],
    pub count: usize,
}

// What the first argument asks for: --run, --trace, or, where it is neither, a log.
pub(crate) fn chosen(rt: &impl Env) -> Form {
    let mut word = [0u8; 7];
    let Ok(n) = rt.arg(1, &mut word) else {
        return Form::Log;
    };
    match &word[..n] {
        b"--run" => Form::Run,
        b"--trace" => Form::Trace,
        _ => Form::Log,
    }
}

// Whether argument i is there and is no option. Its first two bytes are looked at, which stand in the word also where it is longer.
pub(crate) fn names_file(rt: &impl Env, i: usize) -> bool {
    let mut word = [0u8; 2];
    intake::is_given(rt.arg(i, &mut word)) && word != *b"--"
}

// The file that argument i names, and how many bytes of the room it fills. What does not open is as unreadable as what opens and can't be
// read, a directory.
pub(crate) fn table(rt: &(impl Env + Files), i: usize, room: &mut [u8]) -> Option<usize>
    ensures { IfSome result (λ count. IsPrefixLen count room.new) }
{
    let mut file = opened(rt, i)?;
    intake::whole(&mut file, room).ok()
}

// The file that argument i names, open; none where it does not open. std opens no path that is not UTF-8.
fn opened<R: Env + Files>(rt: &R, i: usize) -> Option<R::File> {
    let mut path = [0u8; 4096];
    let n = rt.arg(i, &mut path).ok()?;
    let path = str::from_utf8(&path[..n]).ok()?;
    fs::open(rt, path).ok()
}

// Room for a log and one byte more.
pub(crate) fn room() -> [u8; 1048577]
    ensures { 1048577 ≡ length result }
{
    [0; 1048577]
}

// The arguments from `first` on; none where one of them is no number.
pub(crate) fn given_arguments(rt: &impl Env, first: usize) -> Option<Arguments>
    requires { first ≤ 3 }
    ensures { IfSome result (λ arguments. arguments.count ≤ 9) }
{
    let mut values = [0u32; 9];
    let mut count: usize = 0;
    for i in first..usize::MAX {
        if !intake::is_given(rt.arg(i, &mut [])) {
            break;
        }
        let value = parsed(rt, i)?;
        if count < 9 {
            values[count] = value;
            count += 1;
        }
    }
    Some(Arguments { values, count })
}

// Argument i as a decimal number of 16 digits at most, with no sign.
fn parsed(rt: &impl Env, i: usize) -> Option<u32> {
    let mut word = [0u8; 16];
    let n = rt.arg(i, &mut word).ok()?;
    let digits = str::from_utf8(&word[..n]).ok()?;
    if digits.starts_with('+') {
        return None;
    }
    digits.parse().ok()
}
