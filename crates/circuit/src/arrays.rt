// Occupants as plain numbers, to be lent, and back.
ghost use Rattle.std.specs.Prelude.{◌≡◌};
ghost use Rattle.circuit.specs.Meaning.{numbers};

use table::Node;

pub fn plain(raw: [Node; 32]) -> [u16; 32]
    ensures { result ≡ numbers raw }
{
    raw.map(|n| n.0)
}

pub fn named(raw: [u16; 32]) -> [Node; 32]
    ensures { numbers result ≡ raw }
{
    raw.map(|n| Node(n))
}
