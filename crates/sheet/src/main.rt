// The sheet program: reads a design table from standard input and prints its arbiter sheet, or what it is refused for.
#![tactic(auto)]

use std::env::Env;
use std::io;

fn show(rt: &impl Print, table: &[u8]) -> io::Result<()> {
    match pages::sheet_of(table) {
        Err(refusal) => println!(rt; "{refusal}"),
        Ok(sheet) => rt.write_all(&sheet.text[..sheet.length]),
    }
}

// The longest table has 5252 bytes: one byte more tells that the input is longer than any.
fn print(rt: &(impl Input + Print + Eprint)) -> io::Result<()> {
    let mut input = [0u8; 5253];
    match intake::whole(&mut rt.reader(), &mut input) {
        Ok(count) => show(rt, &input[..count]),
        Err(_) => eprintln!(rt; "sheet: standard input can't be read"),
    }
}

fn main(rt: HostRuntime) -> io::Result<()> {
    if intake::is_given(rt.arg(1, &mut [])) {
        eprintln!(rt; "usage: sheet < FILE.table")
    } else {
        print(&rt)
    }
}
