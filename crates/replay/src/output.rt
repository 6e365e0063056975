// The lines that the program prints.
ghost use Rattle.std.specs.Prelude.{◌≤◌};

use circuit::types::{Answer, Ended, State};
use std::io;
use table::{Function, Node, Refusal};

// One line for an answer, and whether it was a step that was taken.
pub(crate) fn answer(rt: &impl Print, a: Answer) -> io::Result<bool> {
    match a {
        Answer::Taken => {
            println!(rt; "taken")?;
            Ok(true)
        }
        Answer::Answered(value) => {
            println!(rt; "answered {value}")?;
            Ok(true)
        }
        Answer::Refused(reason, place) => {
            println!(rt; "{}", Refusal { reason, place })?;
            Ok(false)
        }
    }
}

pub(crate) fn ended(rt: &impl Print, e: Result<Ended, Refusal>) -> io::Result<()> {
    match e {
        Ok(Ended::Answered(value)) => println!(rt; "answered {value}"),
        Ok(Ended::AtRest) => println!(rt; "at rest"),
        Ok(Ended::Spent) => println!(rt; "spent"),
        Err(refusal) => println!(rt; "{refusal}"),
    }
}

pub(crate) fn count(rt: &impl Print, n: u64) -> io::Result<()> {
    println!(rt; "steps {n}")
}

// The entries of node n.
pub(crate) fn node(rt: &impl Print, s: &State, n: Node) -> io::Result<()>
    requires { (1 ≤ n.0) × (n.0 ≤ 512) }
{
    let i = usize::from(n.0) - 1;
    println!(rt;
        "node {n} {} {} {}",
        s.status[i], s.second[i] as u8, s.value[i]
    )
}

// Function f, its occupant and its eight registers.
pub(crate) fn function(rt: &impl Print, s: &State, f: Function) -> io::Result<()>
    requires { (1 ≤ f.0) × (f.0 ≤ 32) }
{
    let i = usize::from(f.0) - 1;
    print!(rt; "function {f} {}", s.occupant[i])?;
    for value in &s.registers[8 * i..8 * i + 8] {
        print!(rt; " {value}")?;
    }
    println!(rt; "")
}
