// Packed sets of nodes in words of 64 bits: node n is bit (n - 1) mod 64 of word (n - 1) / 64. Of rows of sets, set k begins at word 8 k:
// set g has the nodes of function g, set 32 + g its call sites.
ghost use Rattle.std.specs.Prelude.{◌≡◌, ◌+◌, ◌-◌, ◌*◌, ◌%◌, ◌^◌, ◌≤◌, not, ◌&&◌, ◌||◌, ◌==◌, ◌≢◌};
ghost use Rattle.table.specs.Pick.{pick};
ghost use Rattle.list.specs.Working.{packed, Bit, PutAt};
ghost use Rattle.rules.specs.Sets.{first_in};
ghost use Rattle.circuit.specs.Packed.{Packs, unpacked, Names, Places, LowBit};

use std::array;
use table::Node;

pub type Set = [u64; 8];

pub type Rows = [u64; 520];

// The four sets of a run.
#[derive(Clone, Copy)]
pub struct Sets {
    pub armed: Set,
    pub waiting: Set,
    pub inside: Set,
    pub held: Set,
}

// The bit of node n in its word.
fn bit(n: Node) -> u64
    requires { 1 ≤ n.0 }
    ensures { result ≡ 2 ^ ((n.0 - 1) % 64) }
{
    1u64 << ((n.0 - 1) % 64)
}

// Puts node n into set k of the rows.
pub(crate) fn put_at(rows: &mut Rows, k: usize, n: Node)
    requires { (k ≤ 64) × Bit n.0 }
    ensures { PutAt k n.0 rows.old rows.new }
{
    let m = n.0;
    let at = 8 * k + ((m - 1) / 64) as usize;
    let x = rows[at];
    rows[at] = x | bit(n);
}

// Puts node n into a set or takes it out.
pub(crate) fn mark(set: &mut Set, n: Node, here: bool)
    requires { Bit n.0 }
    ensures { Packs (λ m. pick (n.0 == m) here (packed set.old m)) set.new }
{
    let k = n.0;
    let at = ((k - 1) / 64) as usize;
    let x = set[at];
    let y = bit(n);
    let z = x | y;
    if here {
        set[at] = z;
        return;
    }
    set[at] = z ^ y;
}

// Set k of the rows.
pub(crate) fn row(rows: &Rows, k: usize) -> Set
    requires { k ≤ 64 }
    ensures { Packs (λ m. packed rows.now (512 * k + m)) result }
{
    array::from_fn(|i| rows[8 * k + i])
}

// What two sets have in common.
pub(crate) fn common(set: &Set, other: &Set) -> Set
    ensures { Packs (λ m. packed set.now m && packed other.now m) result }
{
    array::from_fn(|i| set[i] & other[i])
}

// Joins another set to a set. LLVM takes the words of a copy two at a time, since no write can change it.
pub(crate) fn gain(set: &mut Set, other: &Set)
    ensures { Packs (λ m. packed set.old m || packed other.now m) set.new }
{
    let own = *set;
    *set = array::from_fn(|i| own[i] | other[i]);
}

// Takes another set out of a set, likewise.
pub(crate) fn lose(set: &mut Set, other: &Set)
    ensures { Packs (λ m. packed set.old m && not (packed other.now m)) set.new }
{
    let own = *set;
    *set = array::from_fn(|i| own[i] ^ (own[i] & other[i]));
}

// The lowest bit of a word: a function of its own, since what is handed over by value is known to be below 2^64.
fn low(x: u64) -> u16
    requires { x ≢ 0 }
    ensures { LowBit 64 x result }
{
    u64::trailing_zeros(x) as u16
}

impl Sets {
    // The lowest node that is armed, or waiting and not held. Part of its callers: else it would come back through memory, and every step
    // that looks would wait for it.
    #[inline(always)]
    pub(crate) fn first(&self) -> Option<Node>
        ensures { Names result (first_in (unpacked self.now) 512) }
    {
        for i in 0..8usize {
            let w = self.waiting[i];
            let x = self.armed[i] | (w ^ (w & self.held[i]));
            if x != 0 {
                return Some(Node((64 * i) as u16 + low(x) + 1));
            }
        }
        None
    }

    // Puts node n into three sets or takes it out of them.
    pub(crate) fn place(&mut self, n: Node, a: bool, w: bool, i: bool)
        requires { Bit n.0 }
        ensures { Places n.0 a w i (unpacked self.old) (unpacked self.new) × (self.new.held ≡ self.old.held) }
    {
        mark(&mut self.armed, n, a);
        mark(&mut self.waiting, n, w);
        mark(&mut self.inside, n, i);
    }
}
