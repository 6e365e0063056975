// Who names each node: roots, firsts and nexts (refusal 4). By node number: how often the node is named (`mentions`), the function whose
// root it is (`roots`), the node that names it (`namers`). The arrays are lent, since a struct of them would be copied at each call.
ghost use Rattle.std.specs.Prelude.{◌≡◌, ◌&&◌, ◌||◌, ◌<◌, leb, ltb, eqb, replicate};
ghost use Rattle.table.specs.Bytes.{functions, nodes};
ghost use Rattle.table.specs.Find.{lowest};
ghost use Rattle.table.specs.Check.{linked};
ghost use Rattle.table.specs.Working.{Framed, Filled, Raw, Mentioned, Tops, Rooted, Counted, Named, IsLowest, slot_of, ahead_of, linked_by};

use crate::decoded::Cells;
use crate::{Function, Node, decode, decoded, frame};

// A node's place in an array; 0 for a number above 512.
fn slot(v: Node) -> usize
    ensures { (result ≡ slot_of v.0) × (result < 513) }
{
    if v.0 <= 512 { v.0 as usize } else { 0 }
}

// The place of a node that node n may name; 0 where it is not above n.
fn ahead(n: Node, v: Node) -> usize
    ensures { (result ≡ ahead_of n.0 v.0) × (result < 513) }
{
    if n.0 < v.0 { slot(v) } else { 0 }
}

// What the roots name; the functions' records are decoded on the way.
pub(crate) fn roots(
    table: &[u8],
    cells: &mut Cells,
    mentions: &mut [u16; 513],
    roots: &mut [u16; 513],
)
    requires { Framed table.now × Filled table.now 0 0 0 cells.old × (mentions.old ≡ replicate 513 0)
        × (roots.old ≡ replicate 513 0) }
    ensures { Rooted table.now mentions.new roots.new
        × Filled table.now (functions table.now) 0 0 cells.new }
{
    let main = frame::last_function(table).0;
    for f in 1..=main {
        decode::function(table, Function(f), cells);
        let root = decoded::root(cells, Function(f));
        let at = slot(root);
        mentions[at] = mentions[at] + 1;
        roots[at] = f;
    }
}

// And what the firsts and nexts name; the nodes' records are decoded on the way.
pub(crate) fn links(
    table: &[u8],
    cells: &mut Cells,
    mentions: &mut [u16; 513],
    namers: &mut [u16; 513],
)
    requires { Framed table.now × Mentioned table.now mentions.old × (namers.old ≡ replicate 513 0)
        × Filled table.now (functions table.now) 0 0 cells.old }
    ensures { Named table.now mentions.new namers.new
        × Filled table.now (functions table.now) (nodes table.now) 0 cells.new }
{
    let base = frame::base(table);
    let last = frame::last_node(table).0;
    for n in 1..=last {
        decode::node(table, base, Node(n), cells);
        let first = decoded::first(cells, Node(n));
        let next = decoded::next(cells, Node(n));
        let a = slot(first);
        mentions[a] = mentions[a] + 1;
        let b = slot(next);
        mentions[b] = mentions[b] + 1;
        let c = ahead(Node(n), first);
        namers[c] = n;
        let d = ahead(Node(n), next);
        namers[d] = n;
    }
}

// Whether a link is 0 or leads on from node n to a node.
fn forward(n: Node, link: Node, last: Node) -> bool
    ensures { result ≡ (eqb link.0 0 || (ltb n.0 link.0 && leb link.0 last.0)) }
{
    link.0 == 0 || (n.0 < link.0 && link.0 <= last.0)
}

// Whether a node passes 4: its links, how often it is named, and no next at a root.
fn linked_at(n: Node, first: Node, next: Node, mentions: u16, root: Function, last: Node) -> bool
    ensures { result ≡ linked_by n.0 first.0 next.0 mentions root.0 last.0 }
{
    forward(n, first, last)
        && forward(n, next, last)
        && mentions == 1
        && (root.0 == 0 || next.0 == 0)
}

// The lowest node that meets refusal 4.
pub(crate) fn lowest_unlinked(
    table: &[u8],
    cells: &Cells,
    mentions: &[u16; 513],
    roots: &[u16; 513],
) -> Option<Node>
    requires { Framed table.now × Raw table.now cells.now × Counted table.now mentions.now × Tops table.now roots.now }
    ensures { IsLowest result (lowest (linked table.now) (nodes table.now)) }
{
    let last = decoded::last(cells);
    for n in 1..=last.0 {
        let first = decoded::first(cells, Node(n));
        let next = decoded::next(cells, Node(n));
        let mentions = mentions[n as usize];
        let root = roots[n as usize];
        if !linked_at(Node(n), first, next, mentions, Function(root), last) {
            return Some(Node(n));
        }
    }
    None
}
