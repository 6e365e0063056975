// The designs of document 01 that are run and not proved: what the check says at the limits.
#![tactic(auto)]

use std::env::Env;
use std::io;
use table::{Function, Node};

// A table in the making, with room for the longest and a few bytes more; what is put past the room is left out.
#[derive(Clone, Copy)]
struct Table {
    bytes: [u8; 5260],
}

// The fields of a node that the cases give: kind, extra, a small word, the first child; no next.
#[derive(Clone, Copy)]
struct Fields {
    kind: u8,
    extra: u8,
    word: u8,
    first: Node,
}

impl Table {
    // All zero but for F and N, the numbers of main and of the last node.
    fn new(main: Function, last: Node) -> Table {
        let mut table = Table { bytes: [0; 5260] };
        table.sizes(main, last);
        table
    }

    fn put(&mut self, at: usize, byte: u8) {
        if let Some(place) = self.bytes.get_mut(at) {
            *place = byte;
        }
    }

    fn put_two(&mut self, at: usize, n: u16) {
        if at < 5259 {
            let [low, high] = n.to_le_bytes();
            self.put(at, low);
            self.put(at + 1, high);
        }
    }

    fn sizes(&mut self, main: Function, last: Node) {
        self.put_two(0, main.0);
        self.put_two(2, last.0);
    }

    // The record of function f.
    fn function(&mut self, f: Function, params: u8, root: Node) {
        let at = 4 * usize::from(f.0);
        self.put(at, params);
        self.put_two(at + 2, root.0);
    }

    // The record of node n, n from 1, in a table with this main.
    fn node(&mut self, main: Function, n: Node, fields: Fields) {
        let end = 4 + 4 * usize::from(main.0) + 10 * usize::from(n.0);
        if let Some(at) = end.checked_sub(10) {
            self.put(at, fields.kind);
            self.put(at + 1, fields.extra);
            self.put(at + 2, fields.word);
            self.put_two(at + 6, fields.first.0);
        }
    }
}

fn constant(word: u8) -> Fields {
    Fields {
        kind: 1,
        extra: 0,
        word,
        first: Node(0),
    }
}

// 32 functions, the first 31 of one constant each, and main: a chain of doublings down to a constant at node 512.
fn largest() -> Table {
    let main = Function(32);
    let mut t = Table::new(main, Node(512));
    for f in 1..=32u8 {
        let k = u16::from(f);
        t.function(Function(k), 0, Node(k));
        t.node(main, Node(k), constant(f));
    }
    for n in 32..512 {
        let double = Fields {
            kind: 3,
            extra: 5,
            word: 0,
            first: Node(n + 1),
        };
        t.node(main, Node(n), double);
    }
    t.node(main, Node(512), constant(7));
    t
}

// One line: the case, and what the check says of the first `length` bytes.
fn say(rt: &impl Print, case: &str, table: &Table, length: usize) -> io::Result<()> {
    let Some(bytes) = table.bytes.get(..length) else {
        return Ok(());
    };
    match table::check(bytes) {
        Ok(design) => println!(rt; "{case}: accepted {} {}", design.main, design.last),
        Err(refusal) => println!(rt; "{case}: {refusal}"),
    }
}

// The largest table with other sizes.
fn sized(rt: &impl Print, case: &str, main: u16, last: u16) -> io::Result<()> {
    let mut t = largest();
    t.sizes(Function(main), Node(last));
    say(rt, case, &t, 5252)
}

fn limits(rt: &impl Print) -> io::Result<()> {
    let t = largest();
    say(rt, "32 functions, 512 nodes", &t, 5252)?;
    say(rt, "a byte too many", &t, 5253)?;
    say(rt, "a byte too few", &t, 5251)?;
    sized(rt, "33 functions", 33, 512)?;
    sized(rt, "no function", 0, 512)?;
    sized(rt, "513 nodes", 32, 513)?;
    sized(rt, "no node", 32, 0)?;
    say(rt, "3 bytes", &t, 3)?;
    say(rt, "no byte", &t, 0)
}

// Main of one constant, with this many parameters; then main() = f() with f() = 5.
fn parameters(rt: &impl Print) -> io::Result<()> {
    let f = Function(1);
    let n = Node(1);
    let mut one = Table::new(f, n);
    one.node(f, n, constant(5));
    one.function(f, 8, n);
    say(rt, "eight parameters", &one, 18)?;
    one.function(f, 9, n);
    say(rt, "nine parameters", &one, 18)?;
    let main = Function(2);
    let last = Node(2);
    let mut two = Table::new(main, last);
    two.function(f, 0, n);
    two.function(main, 0, last);
    two.node(main, n, constant(5));
    let call = Fields {
        kind: 4,
        extra: 0,
        word: 1,
        first: Node(0),
    };
    two.node(main, last, call);
    say(rt, "a call with no argument", &two, 32)
}

fn main(rt: HostRuntime) -> io::Result<()> {
    if intake::is_given(rt.arg(1, &mut [])) {
        eprintln!(rt; "usage: cases")
    } else {
        limits(&rt)?;
        parameters(&rt)
    }
}
