// Packed sets of nodes in words of 64 bits: node n is bit (n - 1) mod 64 of word (n - 1) / 64.
ghost use Rattle.std.specs.Prelude.{◌≡◌, ◌-◌, ◌%◌, ◌^◌, ◌≤◌, nat_eq};
ghost use Rattle.list.specs.Working.{packed, Bit, Adds};

use table::Node;

pub type Set = [u64; 8];

// The bit of node n in its word.
fn bit(n: Node) -> u64
    requires { 1 ≤ n.0 }
    ensures { result ≡ 2 ^ ((n.0 - 1) % 64) }
{
    1u64 << ((n.0 - 1) % 64)
}

// Puts node n into a set.
pub(crate) fn put(set: &mut Set, n: Node)
    requires { Bit n.0 }
    ensures { Adds (nat_eq n.0) set.old set.new }
{
    set[((n.0 - 1) / 64) as usize] |= bit(n);
}

// Joins another set to a set.
pub(crate) fn join(set: &mut Set, other: &Set)
    ensures { Adds (packed other.now) set.old set.new }
{
    for (i, x) in set.iter_mut().enumerate() {
        *x |= other[i];
    }
}
