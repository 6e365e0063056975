// The list program: reads a design table from standard input and prints its arbiter list, or what it is refused for.
#![tactic(auto)]

ghost use Rattle.std.specs.Prelude.{◌≤◌};

use list::Listing;
use std::env::Env;
use std::io;
use table::Node;

// The lines of the records, in order.
fn arbiters(rt: &impl Print, found: Listing) -> io::Result<()>
    requires { found.count ≤ 512 }
{
    for r in &found.items[..found.count] {
        println!(rt; "arbiter {} {} {}", r.callee, r.caller, r.node)?;
    }
    Ok(())
}

// The number of bits set in the tag list, which is filled here: one bit to a node.
fn total(rt: &impl Print, table: &[u8], last: Node) -> io::Result<()>
    requires { last.0 ≤ 512 }
{
    let mut tags = [0u8; 64];
    let length = usize::from(last.0).div_ceil(8);
    // Not refused: the table gave records, and the list is as long as its nodes ask.
    let _ = list::fill_tags(table, &mut tags[..length]);
    println!(rt; "total {}", list::total(&tags[..length]))
}

fn show(rt: &impl Print, table: &[u8]) -> io::Result<()> {
    match list::list_records(table) {
        Err(refusal) => println!(rt; "{refusal}"),
        Ok(found) => {
            let design = found.design;
            println!(rt; "design {} {}", design.main, design.last)?;
            arbiters(rt, found)?;
            total(rt, table, design.last)
        }
    }
}

// The longest table has 5252 bytes: one byte more tells that the input is longer than any.
fn list(rt: &(impl Input + Print + Eprint)) -> io::Result<()> {
    let mut input = [0u8; 5253];
    match intake::whole(&mut rt.reader(), &mut input) {
        Ok(count) => show(rt, &input[..count]),
        Err(_) => eprintln!(rt; "arbiters: standard input can't be read"),
    }
}

fn main(rt: HostRuntime) -> io::Result<()> {
    if intake::is_given(rt.arg(1, &mut [])) {
        eprintln!(rt; "usage: arbiters < FILE.table")
    } else {
        list(&rt)
    }
}
