// Answers as one number: what each C function gives of the answer of its entry.
ghost use Rattle.std.specs.Prelude.{◌≡◌, Ok};
ghost use Rattle.table.specs.Check.{refused};
ghost use Rattle.table.specs.Refusals.{number_of};
ghost use Rattle.circuit.specs.Meaning.{reply_of, found_of, ended_of};
ghost use Rattle.exports.specs.Codes.{code_of, refusal_code, value_code, record_code};
ghost use Rattle.exports.specs.Answers.{reply_code, found_code, ended_code};

use circuit::types::{Answer, Ended};
use list::Record;
use table::{Node, Refusal};

// The refusal's number * 65536 + its place.
pub(crate) fn short(r: Refusal) -> u32
    ensures { result ≡ code_of (refused (number_of r.reason) r.place.0) }
{
    r.reason.number() as u32 * 65536 + r.place.0 as u32
}

pub(crate) fn refusal(r: Refusal) -> u64
    ensures { result ≡ refusal_code (number_of r.reason) r.place.0 }
{
    8589934592 + short(r) as u64
}

pub(crate) fn value(v: u32) -> u64
    ensures { result ≡ value_code v }
{
    4294967296 + v as u64
}

// A node, or none.
pub(crate) fn node(found: Option<Node>) -> u64
    ensures { result ≡ found_code (found_of (Ok found)) }
{
    match found {
        Some(n) => value(n.0 as u32),
        None => 0,
    }
}

// Callee and caller in a byte each, and the node.
pub(crate) fn record(r: Record) -> u64
    ensures { result ≡ value_code (record_code r) }
{
    4294967296 + (r.callee.0 as u64 * 16777216 + (r.caller.0 as u64 * 65536 + r.node.0 as u64))
}

pub(crate) fn answer(a: Answer) -> u64
    ensures { result ≡ reply_code (reply_of a) }
{
    match a {
        Answer::Taken => 0,
        Answer::Answered(v) => value(v),
        Answer::Refused(reason, place) => refusal(Refusal { reason, place }),
    }
}

pub(crate) fn ended(e: Ended) -> u64
    ensures { result ≡ ended_code (ended_of (Ok e)) }
{
    match e {
        Ended::AtRest => 0,
        Ended::Answered(v) => value(v),
        Ended::Spent => 12884901888,
    }
}
