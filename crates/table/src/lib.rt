// A design table as bytes: number types, total readers, operations' child counts, and the check (refusals 1 to 9, then 25).
#![tactic(auto)]

mod decode;
pub mod decoded;
mod faults;
mod frame;
mod kin;
mod kinds;
mod linking;
mod names;
pub mod read;
mod records;
mod refusals;
mod scope;
mod sweep;

ghost use Rattle.table.specs.Survey.{verdict_of};
ghost use Rattle.table.specs.Check.{check_of, operation_counts};
ghost use Rattle.table.specs.Decoded.{surveyed};
ghost use Rattle.table.specs.Working.{Framed, Taken, Settles};
ghost use Rattle.table.specs.Sweep.{Kin};
ghost use Rattle.std.specs.Prelude.{true, ◌≡◌, replicate, Some, decimal};

pub use crate::refusals::{Reason, Refusal};
use std::fmt;

// A function's number, 1 to F; 0 is none.
#[repr(C)]
#[derive(Clone, Copy, PartialEq, Eq)]
pub struct Function(pub u16);

impl fmt::Display for Function {
    ghost output = { λ f. Some (decimal f.0) };

    fn fmt<W: fmt::Write>(&self, f: &mut fmt::Formatter<W>) -> fmt::Result {
        let Function(number) = *self;
        write!(f, "{number}")
    }
}

// A node's number, 1 to N; 0 is none.
#[repr(C)]
#[derive(Clone, Copy, PartialEq, Eq)]
pub struct Node(pub u16);

impl fmt::Display for Node {
    ghost output = { λ n. Some (decimal n.0) };

    fn fmt<W: fmt::Write>(&self, f: &mut fmt::Formatter<W>) -> fmt::Result {
        let Node(number) = *self;
        write!(f, "{number}")
    }
}

// How many children a node may have, from the fewest to the most.
#[derive(Clone, Copy)]
pub struct Counts {
    pub low: u16,
    pub high: u16,
}

// What an accepted table holds: functions up to main, nodes up to the last.
#[derive(Clone, Copy, PartialEq, Eq)]
pub struct Design {
    pub main: Function,
    pub last: Node,
}

// The fewest and the most children of a primitive with this operation; of a byte that is no operation 0 and 0.
pub fn operation_counts(op: u8) -> Counts
    ensures { result ≡ operation_counts op }
{
    match op {
        0..=4 | 8..=9 => Counts { low: 2, high: 2 },
        5..=7 => Counts { low: 1, high: 1 },
        10 => Counts { low: 1, high: 8 },
        _ => Counts { low: 0, high: 0 },
    }
}

// Refusals 1 to 9, then 25, by rising number over the whole table.
pub fn check(table: &[u8]) -> Result<Design, Refusal>
    ensures { verdict_of result ≡ check_of table.now }
{
    let mut kin = [0u32; 513];
    decide(table, &mut kin)
}

// The check, and an accepted table decoded into lent cells, with each node's function and parent; refused, they stay as they are.
pub fn survey(table: &[u8], cells: &mut [u16; 3270]) -> Result<Design, Refusal>
    ensures { (verdict_of result ≡ check_of table.now)
        × (cells.new ≡ surveyed table.now cells.old) }
{
    let mut kin = [0u32; 513];
    let design = decide(table, &mut kin)?;
    decode::fill(table, &kin, cells);
    Ok(design)
}

// The check, and of an accepted table each node's function and parent.
fn decide(table: &[u8], kin: &mut [u32; 513]) -> Result<Design, Refusal>
    requires { kin.old ≡ replicate 513 0 }
    ensures { Settles table.now result kin.new }
{
    frame::framed(table)?;
    if passes(table, kin) {
        return Ok(Design {
            main: frame::last_function(table),
            last: frame::last_node(table),
        });
    }
    inspect(table, kin)
}

// Whether a table of the right size passes four loops, and so is accepted; its nodes' kin comes with it. What does not pass may be
// accepted all the same as far as this promise goes: `inspect` decides.
fn passes(table: &[u8], kin: &mut [u32; 513]) -> bool
    requires { Framed table.now × (kin.old ≡ replicate 513 0) }
    ensures { result ≡ true → Taken table.now × Kin table.now kin.new }
{
    if !linking::roots(table, kin) {
        return false;
    }
    let mut kids = [0u16; 513];
    let mut wanted = [0u16; 513];
    let mut offspring = [0u32; 513];
    let mut bounds = [0u16; 513];
    let Some(count) = sweep::sift(
        table,
        kin,
        &mut kids,
        &mut wanted,
        &mut offspring,
        &mut bounds,
    ) else {
        return false;
    };
    sweep::all_counted(table, &kids, &wanted)
        && scope::all_fit(table, kin, &offspring, &bounds, count)
}

// A table of the right size: refusals 4 to 9, then 25.
fn inspect(table: &[u8], kin: &mut [u32; 513]) -> Result<Design, Refusal>
    requires { Framed table.now }
    ensures { Settles table.now result kin.new }
{
    let mut cells = [0u16; 3270];
    decode::sizes(table, &mut cells);
    let mut mentions = [0u16; 513];
    let mut tops = [0u16; 513];
    names::roots(table, &mut cells, &mut mentions, &mut tops);
    if !frame::roots_fit(table, &cells) {
        return Err(Reason::Links.into());
    }
    let mut namers = [0u16; 513];
    names::links(table, &mut cells, &mut mentions, &mut namers);
    if let Some(place) = names::lowest_unlinked(table, &cells, &mentions, &tops) {
        return Err(Refusal {
            reason: Reason::Links,
            place,
        });
    }
    if !frame::records_fit(table, &cells) {
        return Err(Reason::Fields.into());
    }
    let tails = kin::collect(table, &mut cells, &tops, &namers);
    faults::lowest(table, &cells, tails)?;
    *kin = kin::recall(table, &cells);
    Ok(Design {
        main: decoded::main(&cells),
        last: decoded::last(&cells),
    })
}
