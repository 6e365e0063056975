// The arbiter list of an accepted table as a packed set: main's body is walked, and each body that it reaches, once.
ghost use Rattle.std.specs.Prelude.{◌≡◌, ℕ, ◌<◌, length, slice_index};
ghost use Rattle.table.specs.Bundle.{bytes};
ghost use Rattle.list.specs.Tags.{tagged, listed};
ghost use Rattle.list.specs.Working.{packed, Bit};

use crate::bits::Set;
use crate::kept::Kept;
use crate::walk;
use table::decoded;
use table::decoded::Decoded;

// A set as bytes, eight to a word, the lowest first.
fn bytes(set: &Set) -> [u8; 64]
    ensures { (length result ≡ 64) × ((i : ℕ) → i < 64 → slice_index result i < 256)
        × ((m : ℕ) → Bit m → tagged result m ≡ packed set.now m) }
{
    let mut all = [0u8; 64];
    for (i, word) in set.iter().enumerate() {
        all[8 * i..8 * i + 8].copy_from_slice(&word.to_le_bytes());
    }
    all
}

// The calls that are in conflict in a body that main reaches.
pub(crate) fn arbiters(design: &Decoded) -> [u8; 64]
    ensures { (length result ≡ 64) × ((i : ℕ) → i < 64 → slice_index result i < 256)
        × ((m : ℕ) → Bit m → tagged result m ≡ listed (bytes design.now) m) }
{
    let mut kept = Kept {
        conflicts: [0u64; 8],
        calls: [[0u64; 8]; 33],
        sites: [[0u64; 8]; 33],
        called: [0u32; 33],
    };
    let main = decoded::main(design.cells);
    walk::body_walk(design, main, &mut kept);
    bytes(&kept.conflicts)
}
