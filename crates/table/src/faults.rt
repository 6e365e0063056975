// The nodes' part of refusals 5 to 9, and 25.
ghost use Rattle.std.specs.Prelude.{◌≡◌, ◌&&◌, ◌||◌, not, ◌^◌, ◌≤◌, ◌<◌, eqb, ltb, length, IfErr};
ghost use Rattle.table.specs.Bytes.{functions, nodes, params, kind, extra, word};
ghost use Rattle.table.specs.Naming.{owner, tail as tail_of, under_last, in_scope, chain};
ghost use Rattle.table.specs.Check.{among, counted, scoped};
ghost use Rattle.table.specs.Refusals.{number_of};
ghost use Rattle.table.specs.Working.{Framed, Linked, Decoded, Within, Tails, NodeAt, better, no_fault, fault_of, met_number, fault_at};
ghost use Rattle.table.specs.Working.{check_nodes, fault_verdict};

use crate::decoded::Cells;
use crate::{Function, Node, Reason, Refusal, decoded, kinds};

// 6: a callee is in 1 to the caller's own number.
fn callee_fits(kind: u16, word: u32, own: Function) -> bool
    ensures { result ≡ (not (eqb kind 4) || among 1 own.0 word) }
{
    kind != 4 || (1 <= word && word <= own.0 as u32)
}

// The number of siblings from c on.
fn chain_length(table: &[u8], cells: &Cells, c: Node) -> usize
    requires { Framed table.now × Linked table.now × Decoded table.now cells.now × (c.0 ≤ nodes table.now) }
    ensures { result ≡ length (chain table.now c.0) }
{
    let mut at = c;
    let mut count: usize = 0;
    while at.0 != 0 {
        at = decoded::next(cells, at);
        count += 1;
    }
    count
}

// A callee's parameters; of what is no call, anything.
fn callee_params(table: &[u8], cells: &Cells, kind: u16, word: u32) -> u16
    requires { Framed table.now × Decoded table.now cells.now × (kind ≡ 4 → (1 ≤ word) × (word ≤ functions table.now)) }
    ensures { kind ≡ 4 → result ≡ params table.now word }
{
    if kind != 4 {
        return 0;
    }
    let f = word as u16;
    decoded::params(cells, Function(f))
}

// 7: as many children as kind and operation allow.
fn count_fits(table: &[u8], cells: &Cells, n: Node, kind: u16, extra: u16, word: u32) -> bool
    requires { NodeAt table.now cells.now n.0 kind extra word × (kind ≡ 4 → (1 ≤ word) × (word ≤ functions table.now))
        × (kind ≡ 3 → extra < 256) }
    ensures { result ≡ counted table.now n.0 }
{
    let p = callee_params(table, cells, kind, word);
    let c = kinds::child_counts(kind, extra, p);
    let first = decoded::first(cells, n);
    let j = chain_length(table, cells, first);
    c.low as usize <= j && j <= c.high as usize
}

// Whether n or a node above it is the last child of p.
fn under_last(table: &[u8], cells: &Cells, p: Node, n: Node) -> bool
    requires { Within table.now cells.now n.0 × (1 ≤ p.0) }
    ensures { result ≡ under_last table.now p.0 n.0 }
{
    let mut a = n;
    while p.0 < a.0 {
        let up = decoded::parent(cells, a);
        if up == p {
            return decoded::next(cells, a).0 == 0;
        }
        a = up;
    }
    false
}

// Whether d is a definiens of a let whose body is or contains n.
fn in_scope(table: &[u8], cells: &Cells, d: u32, n: Node) -> bool
    requires { Within table.now cells.now n.0 }
    ensures { result ≡ in_scope table.now d n.0 }
{
    if d == 0 {
        return false;
    }
    let last = decoded::last(cells);
    if (last.0 as u32) < d {
        return false;
    }
    let low = d as u16;
    let k = Node(low);
    let p = decoded::parent(cells, k);
    if p.0 == 0 {
        return false;
    }
    if decoded::kind(cells, p) != 6 {
        return false;
    }
    if decoded::next(cells, k).0 == 0 {
        return false;
    }
    under_last(table, cells, p, n)
}

// 8: a parameter's index is below the count, a bound node's definiens is in scope.
fn scope_fits(
    table: &[u8],
    cells: &Cells,
    n: Node,
    kind: u16,
    extra: u16,
    word: u32,
    own: Function,
) -> bool
    requires { NodeAt table.now cells.now n.0 kind extra word × (own.0 ≡ owner table.now
        n.0) }
    ensures { result ≡ scoped table.now n.0 }
{
    if kind == 2 {
        return extra < decoded::params(cells, own);
    }
    if kind == 7 {
        return in_scope(table, cells, word, n);
    }
    true
}

// 9: a self call is in tail position.
fn tail_fits(kind: u16, word: u32, own: Function, tail: bool) -> bool
    ensures { result ≡ (not (eqb kind 4 && eqb word own.0) || tail) }
{
    kind != 4 || word != own.0 as u32 || tail
}

// 25: a constant is below 2^w, w being the width of its function. From 32 bits on, every word is.
fn const_fits(kind: u16, word: u32, width: u16) -> bool
    ensures { result ≡ (not (eqb kind 1) || ltb word (2 ^ width)) }
{
    kind != 1 || 32 <= width || word < 1u32 << width
}

// The first reason that a node meets.
fn fault_at(table: &[u8], cells: &Cells, n: Node, own: Function, tail: bool) -> Result<(), Reason>
    requires within { Within table.now cells.now n.0 }
    requires own_value { (own.0 ≡ owner table.now n.0) × (tail ≡ tail_of table.now n.0) }
    ensures first { met_number result ≡ fault_at table.now n.0 }
    ensures low { IfErr result (λ reason. number_of reason < no_fault) }
{
    let kind = decoded::kind(cells, n);
    let extra = decoded::extra(cells, n);
    let word = decoded::word(cells, n);
    let first = decoded::first(cells, n);
    if !kinds::formed(kind, extra, word, first) {
        return Err(Reason::Fields);
    }
    if !callee_fits(kind, word, own) {
        return Err(Reason::Callee);
    }
    if !count_fits(table, cells, n, kind, extra, word) {
        return Err(Reason::Children);
    }
    if !scope_fits(table, cells, n, kind, extra, word, own) {
        return Err(Reason::Scope);
    }
    if !tail_fits(kind, word, own, tail) {
        return Err(Reason::Tail);
    }
    if !const_fits(kind, word, decoded::width(cells, own)) {
        return Err(Reason::Constant);
    }
    Ok(())
}

// The lower number; of one number the node that came first.
fn lower(best: Result<(), Refusal>, met: Result<(), Reason>, place: Node) -> Result<(), Refusal>
    requires { IfErr met (λ reason. number_of reason < no_fault) }
    ensures lowest { fault_of result ≡ better (fault_of best) (met_number met) place.0 }
    ensures low { IfErr best (λ refusal. number_of refusal.reason < no_fault)
        → IfErr result (λ refusal. number_of refusal.reason < no_fault) }
{
    let Err(reason) = met else {
        return best;
    };
    match best {
        Err(known) if known.reason.number() <= reason.number() => best,
        _ => Err(Refusal { reason, place }),
    }
}

// The lowest number of 5 to 9, then 25, that a node meets, and the lowest node that meets it.
pub(crate) fn lowest(table: &[u8], cells: &Cells, tails: [bool; 513]) -> Result<(), Refusal>
    requires { Framed table.now × Linked table.now × Decoded table.now cells.now × Tails table.now tails }
    ensures { fault_verdict table.now result ≡ check_nodes table.now }
{
    let last = decoded::last(cells).0;
    let mut best = Ok(());
    for n in 1..=last {
        let own = decoded::owner(cells, Node(n));
        let met = fault_at(table, cells, Node(n), own, tails[n as usize]);
        best = lower(best, met, Node(n));
    }
    best
}
