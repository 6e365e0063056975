// Plays a log of asked nodes on the circuit of a table file, under the table's own arbiter list, and prints each answer and the state.
// With --run or --trace first it reads no log and takes the first possible step again and again; with --trace it prints their nodes.
#![tactic(auto)]

mod input;
mod output;

ghost use Rattle.std.specs.Prelude.{◌≤◌};

use circuit::types::{Started, State};
use input::{Arguments, Form};
use std::env::Env;
use std::io;
use std::rt::Files;
use table::{Function, Node, read};

fn main(rt: HostRuntime) -> io::Result<()> {
    let form = input::chosen(&rt);
    let first = if form == Form::Log { 1 } else { 2 };
    prepare(&rt, first, form)
}

// The table is named by argument `first`, main's arguments follow it.
fn prepare(
    rt: &(impl Env + Files + Input + Print + Eprint),
    first: usize,
    form: Form,
) -> io::Result<()>
    requires { first ≤ 2 }
{
    if !input::names_file(rt, first) {
        return eprintln!(rt; "usage: replay [--run | --trace] FILE.table ARGUMENTS..");
    }
    let mut file = [0u8; 5253];
    let Some(length) = input::table(rt, first, &mut file) else {
        return eprintln!(rt; "replay: the table file can't be read");
    };
    let Some(arguments) = input::given_arguments(rt, first + 1) else {
        return eprintln!(rt; "replay: an argument is no number from 0 to 4294967295");
    };
    begin(rt, &file[..length], arguments, form)
}

// The circuit's start under the table's own list.
fn begin(
    rt: &(impl Input + Print + Eprint),
    table: &[u8],
    arguments: Arguments,
    form: Form,
) -> io::Result<()>
    requires { arguments.count ≤ 9 }
{
    let mut room = [0u8; 64];
    let length = tag_length(table);
    // Where the table is refused, the start below says why.
    let _ = list::fill_tags(table, &mut room[..length]);
    let tags = &room[..length];
    let s = circuit::start(table, tags, &arguments.values[..arguments.count], blank());
    match form {
        Form::Log => log(rt, table, tags, s),
        Form::Run => run(rt, table, tags, s),
        Form::Trace => trace(rt, table, tags, s),
    }
}

// The state before any start.
fn blank() -> State {
    State {
        status: [0; 512],
        second: [false; 512],
        value: [0; 512],
        registers: [0; 256],
        occupant: [Node(0); 32],
    }
}

// The log whole, before anything is printed.
fn log(
    rt: &(impl Input + Print + Eprint),
    table: &[u8],
    tags: &[u8],
    s: Started,
) -> io::Result<()> {
    let mut asked = input::room();
    let Ok(size) = intake::whole(&mut rt.reader(), &mut asked) else {
        return eprintln!(rt; "replay: the log on standard input can't be read");
    };
    if 1048576 < size {
        return eprintln!(rt; "replay: the log is longer than 1048576 bytes");
    }
    if size % 2 == 1 {
        return eprintln!(rt; "replay: the log's length is odd");
    }
    match s.opening {
        Err(refusal) => println!(rt; "{refusal}"),
        Ok(()) => {
            println!(rt; "started")?;
            play(rt, table, tags, s.state, &asked[..size])
        }
    }
}

// N, or 512 where a table says more.
fn last_node(table: &[u8]) -> Node
    ensures { result.0 ≤ 512 }
{
    Node(read::nodes(table).0.min(512))
}

// F, or 32 where a table says more.
fn last_function(table: &[u8]) -> Function
    ensures { result.0 ≤ 32 }
{
    Function(read::functions(table).0.min(32))
}

// How many bytes a table's tag list has, 64 at most.
fn tag_length(table: &[u8]) -> usize
    ensures { result ≤ 64 }
{
    usize::from(last_node(table).0).div_ceil(8)
}

// Each asked node, two bytes of the log, then how many were taken and the state.
fn play(rt: &impl Print, table: &[u8], tags: &[u8], start: State, asked: &[u8]) -> io::Result<()> {
    let mut state = start;
    let mut taken: u64 = 0;
    for two in asked.chunks_exact(2) {
        let n = Node(u16::from_le_bytes([two[0], two[1]]));
        let r = circuit::step(table, tags, state, n);
        state = r.state;
        if output::answer(rt, r.answer)? {
            taken = taken.wrapping_add(1);
        }
    }
    output::count(rt, taken)?;
    show(rt, table, &state)
}

// The entries of the table's nodes and functions.
fn show(rt: &impl Print, table: &[u8], s: &State) -> io::Result<()> {
    for n in 1..=last_node(table).0 {
        output::node(rt, s, Node(n))?;
    }
    for f in 1..=last_function(table).0 {
        output::function(rt, s, Function(f))?;
    }
    Ok(())
}

// The first possible step, again and again, as often as there is one.
fn run(rt: &impl Print, table: &[u8], tags: &[u8], s: Started) -> io::Result<()> {
    match s.opening {
        Err(refusal) => println!(rt; "{refusal}"),
        Ok(()) => {
            let r = circuit::drive(table, tags, s.state, u32::MAX);
            output::ended(rt, r.ended)?;
            output::count(rt, u64::from(r.steps))
        }
    }
}

// The same steps one by one, each at the node that the query names.
fn trace(rt: &impl Print, table: &[u8], tags: &[u8], s: Started) -> io::Result<()> {
    match s.opening {
        Err(refusal) => println!(rt; "{refusal}"),
        Ok(()) => follow(rt, table, tags, s.state),
    }
}

// Up to where no step is possible, or until the highest budget is spent.
fn follow(rt: &impl Print, table: &[u8], tags: &[u8], start: State) -> io::Result<()> {
    let mut state = start;
    for taken in 0..u32::MAX {
        let Ok(Some(n)) = circuit::query(table, tags, state) else {
            return close(rt, table, tags, state, taken);
        };
        println!(rt; "{n}")?;
        state = circuit::step(table, tags, state, n).state;
    }
    close(rt, table, tags, state, u32::MAX)
}

// A run with nothing to spend tells how the circuit stands.
fn close(rt: &impl Print, table: &[u8], tags: &[u8], s: State, taken: u32) -> io::Result<()> {
    let r = circuit::drive(table, tags, s, 0);
    output::ended(rt, r.ended)?;
    output::count(rt, u64::from(taken))
}
