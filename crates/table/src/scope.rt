// Whether each bound is in the body of a let that has its definiens, by what is around it.
ghost use Rattle.std.specs.Prelude.{◌≡◌, true, ◌⊎◌, ◌≤◌, T, eqb};
ghost use Rattle.table.specs.Find.{one};
ghost use Rattle.table.specs.Bytes.{nodes, word};
ghost use Rattle.table.specs.Naming.{in_scope};
ghost use Rattle.table.specs.Working.{IsNode, Framed, At, Linked};
ghost use Rattle.table.specs.Sweep.{around, Kin, HandedDown, Encloses, Outward, BoundsFit, BoundsTo};

use crate::{Node, frame, linking, records, sweep};

fn same(a: Node, b: Node) -> u16
    ensures { (result ≡ one (eqb a.0 b.0)) × (result ≤ 1) }
{
    u16::from(a == b)
}

// Whether p is one of four, without a branch.
fn one_of_four(a: Node, b: Node, c: Node, d: Node, p: Node) -> bool
    ensures { result ≡ true → (a.0 ≡ p.0) ⊎ ((b.0 ≡ p.0) ⊎ ((c.0 ≡ p.0) ⊎ (d.0 ≡ p.0))) }
{
    same(a, p) + same(b, p) + same(c, p) + same(d, p) != 0
}

// The innermost let around a.
fn outer(table: &[u8], offspring: &[u32; 513], a: Node) -> Node
    requires { Framed table.now × HandedDown table.now offspring.now × (a.0 ≤ nodes table.now) }
    ensures { (result.0 ≡ around table.now a.0) × (result.0 ≤ nodes table.now) }
{
    sweep::let_in(offspring[a.0 as usize])
}

// Whether p is `from` or among the lets around it.
fn climbs(table: &[u8], offspring: &[u32; 513], p: Node, from: Node) -> bool
    requires { Framed table.now × HandedDown table.now offspring.now × (from.0 ≤ nodes table.now) }
    ensures { result ≡ true → Outward table.now from.0 p.0 }
{
    let mut a = from;
    while p.0 < a.0 {
        a = outer(table, offspring, a);
    }
    a == p
}

// Whether n is in the body of let p. The innermost lets are looked at without a branch: how near p is, is hard to foresee.
fn reaches(table: &[u8], offspring: &[u32; 513], n: Node, p: Node) -> bool
    requires { Framed table.now × HandedDown table.now offspring.now × IsNode table.now n.0 }
    ensures { result ≡ true → Encloses table.now p.0 n.0 }
{
    let a = outer(table, offspring, n);
    let b = outer(table, offspring, a);
    let c = outer(table, offspring, b);
    let d = outer(table, offspring, c);
    if one_of_four(a, b, c, d, p) {
        return true;
    }
    climbs(table, offspring, p, d)
}

// 8 at bound n.
fn bound_fits(
    table: &[u8],
    base: usize,
    last: Node,
    kin: &[u32; 513],
    offspring: &[u32; 513],
    n: Node,
) -> bool
    requires { At table.now base n.0 × (last.0 ≡ nodes table.now) × Linked table.now × Kin table.now kin.now
        × HandedDown table.now offspring.now }
    ensures { result ≡ true → T (in_scope table.now (word table.now n.0) n.0) }
{
    let word = records::word(table, base, n);
    if word < 1 {
        return false;
    }
    if (last.0 as u32) < word {
        return false;
    }
    let low = word as u16;
    let d = Node(low);
    let p = linking::parent(kin[d.0 as usize]);
    if p.0 == 0 {
        return false;
    }
    if offspring[p.0 as usize] / 1024 % 2 == 0 {
        return false;
    }
    if records::next(table, base, d).0 == 0 {
        return false;
    }
    reaches(table, offspring, n, p)
}

// 8 at all bounds.
pub(crate) fn all_fit(
    table: &[u8],
    kin: &[u32; 513],
    offspring: &[u32; 513],
    bounds: &[u16; 513],
    count: usize,
) -> bool
    requires { Framed table.now × Linked table.now × Kin table.now kin.now × HandedDown table.now offspring.now
        × BoundsTo table.now (nodes table.now) bounds.now count }
    ensures { result ≡ true → BoundsFit table.now }
{
    let base = frame::base(table);
    let last = frame::last_node(table);
    for &n in &bounds[..count] {
        if !bound_fits(table, base, last, kin, offspring, Node(n)) {
            return false;
        }
    }
    true
}
