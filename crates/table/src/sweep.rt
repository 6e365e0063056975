// What a node's kind asks of it, node by node, without a branch on the kind.
ghost use Rattle.std.specs.Prelude.{◌≡◌, IfSome, true, ℕ, ◌+◌, ◌-◌, ◌*◌, ◌/◌, ◌%◌, ◌^◌, ◌≤◌, ◌<◌, T, eqb, leb, length, replicate};
ghost use Rattle.table.specs.Find.{one};
ghost use Rattle.table.specs.Bytes.{functions, nodes, params, width};
ghost use Rattle.table.specs.Check.{counts_of, counted};
ghost use Rattle.table.specs.Working.{IsNode, IsFunction, Framed};
ghost use Rattle.table.specs.Sweep.{rule_of, RulesOf, Handed, RootsFit, Kids, Wanted, KindFits};
ghost use Rattle.table.specs.Sweep.{Siftable, Sifts, Sifted};

use crate::kinds::Rule;
use crate::{Function, Node, frame, kinds, linking, records};

// A node sifted, in numbers that specs/Sweep names.
#[derive(Clone, Copy)]
pub struct Sifting {
    pub down: u32,
    pub bound: u32,
    pub wants: u16,
}

// Whether a node is a last child, as a number.
fn ending(next: Node) -> u32
    ensures { result ≡ one (eqb next.0 0) }
{
    u32::from(next.0 == 0)
}

// Whether a child reaches a tail position, as a number.
fn tail_at(from: u32, reach: u32) -> u32
    ensures { result ≡ one (leb from reach) }
{
    u32::from(from <= reach)
}

// The highest constant that function f may have, without a branch on a width byte of 0.
fn highest(table: &[u8], f: Function) -> u32
    requires { Framed table.now × RootsFit table.now (functions table.now) × IsFunction table.now f.0 }
    ensures { result + 1 ≡ 2 ^ width table.now f.0 }
{
    let byte = records::width_byte(table, f);
    4294967295u32 >> ((32 - byte) % 32)
}

// The highest word that a node of function `owner`, whose highest constant is `most`, may have: a call's is a callee, with its own
// function in tail position alone.
fn most_word(rule: Rule, kind: u16, owner: Function, most: u32, tail: u32) -> u64
    requires { (rule ≡ rule_of kind) × (1 ≤ owner.0) × (owner.0 ≤ 32) × (tail ≤ 1) }
    ensures { result ≡ (owner.0 + tail - 1) * (rule_of kind).call + (rule_of kind).words * most }
{
    if rule.call == 1 {
        (owner.0 as u64) + (tail as u64) - 1
    } else {
        rule.words as u64 * most as u64
    }
}

// Extra, word, 6, 8 and 9 for calls and parameters and 25 for constants, of a node of function `owner`, which has `params` parameters and
// whose highest constant is `most`.
fn kind_fits(
    rule: Rule,
    kind: u16,
    extra: u32,
    word: u64,
    owner: Function,
    params: u32,
    most: u32,
    tail: u32,
) -> bool
    requires { (rule ≡ rule_of kind) × (kind < 8) × (1 ≤ owner.0) × (owner.0 ≤ 32) × (params ≤ 8) × (tail ≤ 1) }
    ensures { result ≡ true → KindFits kind extra word owner.0 params (most + 1) tail }
{
    let below = params * rule.parameter as u32 + rule.extras as u32;
    if below <= extra {
        return false;
    }
    let call = rule.call as u64;
    if word < call {
        return false;
    }
    word <= most_word(rule, kind, owner, most, tail)
}

// The parameters of a call's callee; 0 of what is no call.
fn arguments(table: &[u8], call: u32, word: usize) -> u32
    requires { Framed table.now × (call ≡ 1 → IsFunction table.now word) }
    ensures { (call ≡ 1 → result ≡ params table.now word) × ((call ≡ 1 → ⊥) → result ≡ 0) }
{
    if call == 1 { table[4 * word] as u32 } else { 0 }
}

// The fewest children that kind and operation allow, and 256 times the most; a call has as many as its callee has parameters.
fn wants(rule: Rule, kind: u16, extra: u32, params: u32) -> u16
    requires { (rule ≡ rule_of kind) × (extra < 16) × (kind ≡ 4 → params ≤ 8)
        × ((kind ≡ 4 → ⊥) → params ≡ 0) }
    ensures { (result % 256 ≡ (counts_of kind extra params).low) × (result / 256 ≡ (counts_of kind extra params).high) }
{
    let own = kinds::packed(crate::operation_counts(extra as u8)) as u32;
    let operation = own * rule.primitive as u32;
    let counts = rule.counts as u32 + operation + 257 * params;
    counts as u16
}

// The innermost let around a node that hands this down.
pub(crate) fn let_in(down: u32) -> Node
    ensures { result.0 ≡ down % 1024 }
{
    Node((down % 1024) as u16)
}

// The innermost let around a node: its parent, where it is that let's body (1), else what is around its parent (0). In 32 bits, as what
// comes in and goes out is: so LLVM has no number to widen.
fn innermost(outer: Node, up: Node, body: u32) -> Node
    requires { (outer.0 < 1024) × (up.0 < 1024) × (body ≤ 1) }
    ensures { result.0 ≡ outer.0 * (1 - body) + up.0 * body }
{
    let inner = ((outer.0 as u32) * (1 - body) + (up.0 as u32) * body) as u16;
    Node(inner)
}

// Node n, with its kin and what its parent handed down.
fn node(
    table: &[u8],
    base: usize,
    rules: &[Rule; 8],
    n: Node,
    own: u32,
    inherited: u32,
) -> Option<Sifting>
    requires { Siftable table.now base n.0 own × RulesOf 8 rules.now }
    ensures { IfSome result (Sifts table.now n.0 inherited) }
{
    let kind = records::kind(table, base, n);
    if 7 < kind {
        return None;
    }
    let rule = rules[kind as usize];
    let extra = records::extra(table, base, n) as u32;
    let word = records::word(table, base, n) as u64;
    let owner = linking::owner(own);
    let end = ending(records::next(table, base, n));
    let tail = tail_at(inherited / 2048, own / 65536 + 1024 * end);
    let params = records::params(table, owner) as u32;
    let most = highest(table, owner);
    if !kind_fits(rule, kind, extra, word, owner, params, most, tail) {
        return None;
    }
    let call = rule.call as u32;
    let args = arguments(table, call, word as usize);
    let body = end * (inherited / 1024 % 2);
    let scope = innermost(let_in(inherited), linking::parent(own), body);
    let down = (scope.0 as u32) + 1024 * (rule.reach as u32 + 4096 - 4096 * tail);
    Some(Sifting {
        down,
        bound: rule.bound as u32,
        wants: wants(rule, kind, extra, args),
    })
}

// All nodes, each handing on its kin; bounds are put aside. The last child of a node is the last to leave its rank among the numbers of
// children. Kin is handed on and nodes are sifted in one loop: each waits for what the node before it wrote, and so they wait at once.
// What comes back is how many bounds there are, whose scope is still to be looked at.
pub(crate) fn sift(
    table: &[u8],
    kin: &mut [u32; 513],
    kids: &mut [u16; 513],
    wanted: &mut [u16; 513],
    offspring: &mut [u32; 513],
    bounds: &mut [u16; 513],
) -> Option<usize>
    requires { Framed table.now × Handed table.now (functions table.now) 0 kin.old × RootsFit table.now (functions table.now)
        × (kids.old ≡ replicate 513 0) × (length wanted.old ≡ 513) × (offspring.old ≡ replicate 513 0)
        × (bounds.old ≡ replicate 513 0) }
    ensures { IfSome result (Sifted table.now kin.new kids.new wanted.new offspring.new bounds.new) }
{
    let rules = kinds::rules();
    let base = frame::base(table);
    let last = frame::last_node(table);
    let mut count: usize = 0;
    for n in 1..=last.0 {
        let at = n as usize;
        let own = kin[at];
        if !linking::hand_on(table, base, last, Node(n), kin) {
            return None;
        }
        let up = linking::parent(own);
        let r = node(table, base, &rules, Node(n), own, offspring[up.0 as usize])?;
        kids[up.0 as usize] = (own / 65536) as u16;
        wanted[at] = r.wants;
        offspring[at] = r.down;
        bounds[count] = n;
        count += r.bound as usize;
    }
    Some(count)
}

// Whether a number of children is outside what is wanted, as a number: 0 is no.
fn outside(kids: u16, wants: u16) -> u16
    ensures { (result ≤ 1) × (result ≡ 0 → (wants % 256 ≤ kids) × (kids ≤ wants / 256)) }
{
    u16::from(kids < wants % 256 || wants / 256 < kids)
}

// 7 at all nodes. All are looked at, so that LLVM takes eight at a time.
pub(crate) fn all_counted(table: &[u8], kids: &[u16; 513], wanted: &[u16; 513]) -> bool
    requires { Framed table.now × Kids table.now kids.now × Wanted table.now (nodes table.now) wanted.now }
    ensures { result ≡ true → (n : ℕ) → IsNode table.now n → T (counted table.now n) }
{
    let end = frame::last_node(table).0 as usize;
    let mut wrong: u16 = 0;
    for n in 1..=end {
        wrong += outside(kids[n], wanted[n]);
    }
    wrong == 0
}
