// What a node's kind allows (refusals 5 and 7); how many children an operation has, `operation_counts` says (lib.rt).
ghost use Rattle.std.specs.Prelude.{◌≡◌, ◌≤◌, ◌<◌};
ghost use Rattle.table.specs.Check.{fields, counts_of};
ghost use Rattle.table.specs.Sweep.{rule_of, packed, RulesOf};

use crate::{Counts, Node};

// How many children a node may have, by its kind: a call has as many as its callee has parameters.
pub(crate) fn child_counts(kind: u16, op: u16, params: u16) -> Counts
    requires { kind ≡ 3 → op < 256 }
    ensures { result ≡ counts_of kind op params }
{
    match kind {
        3 => crate::operation_counts(op as u8),
        4 => Counts {
            low: params,
            high: params,
        },
        5 => Counts { low: 3, high: 3 },
        6 => Counts { low: 2, high: 9 },
        _ => Counts { low: 0, high: 0 },
    }
}

// Whether kind and operation are known, and the fields that carry nothing are zero.
pub(crate) fn formed(kind: u16, extra: u16, word: u32, first: Node) -> bool
    ensures { result ≡ fields kind extra word first.0 }
{
    match kind {
        1 | 7 => extra == 0 && first.0 == 0,
        2 => word == 0 && first.0 == 0,
        3 => match extra {
            0..=10 => word == 0,
            _ => false,
        },
        4 => extra == 0,
        5 | 6 => extra == 0 && word == 0,
        _ => false,
    }
}

// What a kind asks of a node and tells its children, in numbers: 1 is yes.
#[derive(Clone, Copy)]
pub struct Rule {
    // What extra is below; a parameter's is below its function's count.
    pub extras: u16,
    pub parameter: u16,
    pub call: u16,
    // Twice what children reach in tail position, and 1 more for a let.
    pub reach: u16,
    pub bound: u16,
    pub primitive: u16,
    // The word is at most so many times its function's highest constant, which is 1 or more; a call's is a callee. 512 lets every node's
    // number pass.
    pub words: u16,
    // The fewest children, and 256 times the most: 0 of a primitive, whose operation tells, and of a call, whose callee does.
    pub counts: u16,
}

// A kind that asks for nothing.
const PLAIN: Rule = Rule {
    extras: 0,
    parameter: 0,
    call: 0,
    reach: 4096,
    bound: 0,
    primitive: 0,
    words: 0,
    counts: 0,
};

// By a node's kind; 0 is none. The child counts are those of `child_counts`, of an operation past the last one and of no parameter.
fn rule_of(kind: u16) -> Rule
    requires { kind < 8 }
    ensures { result ≡ rule_of kind }
{
    let plain = Rule {
        counts: packed(child_counts(kind, 11, 0)),
        ..PLAIN
    };
    match kind {
        1 => Rule {
            extras: 1,
            words: 1,
            ..plain
        },
        2 => Rule {
            parameter: 1,
            ..plain
        },
        3 => Rule {
            extras: 11,
            primitive: 1,
            ..plain
        },
        4 => Rule {
            extras: 1,
            call: 1,
            ..plain
        },
        5 => Rule {
            extras: 1,
            reach: 4,
            ..plain
        },
        6 => Rule {
            extras: 1,
            reach: 2051,
            ..plain
        },
        7 => Rule {
            extras: 1,
            bound: 1,
            words: 512,
            ..plain
        },
        _ => plain,
    }
}

// The fewest children, and 256 times the most.
pub(crate) fn packed(c: Counts) -> u16
    requires { (c.low ≤ 9) × (c.high ≤ 9) }
    ensures { result ≡ packed c }
{
    c.low + 256 * c.high
}

// All kinds' rules in one array: looked up and not branched on, since the kinds of neighbouring nodes are hard to foresee.
pub(crate) fn rules() -> [Rule; 8]
    ensures { RulesOf 8 result }
{
    let mut rules = [PLAIN; 8];
    for kind in 0..8 {
        rules[kind as usize] = rule_of(kind);
    }
    rules
}
