// Tag lists: node n is bit (n - 1) mod 8 of byte (n - 1) / 8.
ghost use Rattle.std.specs.Prelude.{◌≡◌, ◌+◌, ◌-◌, ◌*◌, ◌≤◌, not, ◌&&◌, ◌==◌, length, ◌/◌};
ghost use Rattle.table.specs.Decoded.{cell_at, node_slot, table_slot};
ghost use Rattle.table.specs.Find.{lowest, all};
ghost use Rattle.table.specs.Survey.{verdict_of};
ghost use Rattle.list.specs.Tags.{found, tagged, cell_fits, held_by};

use table::decoded::Cells;
use table::{Design, Node, Reason, Refusal, decoded};

// How many bytes a tag list has for nodes up to the last.
pub(crate) fn size(last: Node) -> usize
    ensures { result ≡ (last.0 + 7) / 8 }
{
    (last.0 as usize + 7) / 8
}

// Whether no bit past the last node is set.
fn none_past(tags: &[u8], last: Node) -> bool
    requires { length tags.now ≤ 8192 }
    ensures { result ≡ all (λ i. not (tagged tags.now (last.0 + i))) (8 * length tags.now - last.0) }
{
    for i in last.0 as usize..8 * tags.len() {
        if crate::bit_at(tags, i) {
            return false;
        }
    }
    true
}

// Whether a tag at node n is refused: it is no call, or a self call.
fn unfit(cells: &Cells, n: Node) -> bool
    ensures { result ≡ not (cell_at cells.now (node_slot n.0) 0 == 4
        && not (cell_at cells.now (node_slot n.0) 2 == cell_at cells.now (node_slot n.0) 6)) }
{
    decoded::kind(cells, n) != 4 || decoded::callee(cells, n) == decoded::owner(cells, n)
}

// The lowest node that is tagged and unfit. A byte of zeros is passed over.
fn lowest_unfit(cells: &Cells, tags: &[u8]) -> Option<Node>
    requires { (length tags.now ≤ 8192) × (cell_at cells.now table_slot 2 ≤ 8 * length tags.now) }
    ensures { result ≡ found (lowest (cell_fits cells.now tags.now) (cell_at cells.now table_slot 2)) }
{
    let last = decoded::last(cells).0 as usize;
    for (i, byte) in tags.iter().enumerate() {
        if *byte != 0 {
            let end = last.min(8 * i + 8);
            for n in 8 * i + 1..end + 1 {
                let n = Node(n as u16);
                if crate::marks(tags, n) && unfit(cells, n) {
                    return Some(n);
                }
            }
        }
    }
    None
}

// A tag list beside a decoded table: 10, all its cases.
pub(crate) fn held(cells: &Cells, tags: &[u8]) -> Result<Design, Refusal>
    ensures { verdict_of result ≡ held_by cells.now tags.now }
{
    let last = decoded::last(cells);
    if tags.len() != size(last) {
        return Err(Reason::Tags.into());
    }
    if !none_past(tags, last) {
        return Err(Reason::Tags.into());
    }
    if let Some(place) = lowest_unfit(cells, tags) {
        return Err(Refusal {
            reason: Reason::Tags,
            place,
        });
    }
    let main = decoded::main(cells);
    Ok(Design { main, last })
}
