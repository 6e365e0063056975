// The lowest call of the arbiter list that a tag list lacks.
ghost use Rattle.std.specs.Prelude.{◌≡◌, ◌*◌, ◌≤◌, length};
ghost use Rattle.table.specs.Find.{lowest};
ghost use Rattle.list.specs.Tags.{found, tagged, holds_at};

use table::Node;

// Some bytes of a set, from the front, none of which has a bit that the tags lack: all of them up to the first that has one.
fn covered(set: &[u8; 64], tags: &[u8]) -> usize
    requires { length tags.now ≤ 64 }
    ensures { (result ≤ length tags.now) × (lowest (holds_at (tagged set.now) tags.now) (8 * result) ≡ 0) }
{
    for (i, byte) in tags.iter().enumerate() {
        if set[i] | *byte != *byte {
            return i;
        }
    }
    tags.len()
}

// The lowest node of a set that has no tag. What the tags cover is passed over byte by byte.
pub(crate) fn lowest_missing(set: &[u8; 64], tags: &[u8]) -> Option<Node>
    requires { length tags.now ≤ 64 }
    ensures { result ≡ found (lowest (holds_at (tagged set.now) tags.now) (8 * length tags.now)) }
{
    for n in 8 * covered(set, tags) + 1..8 * tags.len() + 1 {
        let n = Node(n as u16);
        if crate::marks(set, n) && !crate::marks(tags, n) {
            return Some(n);
        }
    }
    None
}
