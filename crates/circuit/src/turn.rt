// A step asked at a number, of a table and tags that were checked and a state that passed 24: 12, 20, then 21 to 23.
ghost use Rattle.std.specs.Prelude.{◌≡◌, ℕ, ◌≤◌, List, ◌==◌};
ghost use Rattle.table.specs.Bundle.{bytes};
ghost use Rattle.table.specs.declared.refusals.Reason.TheVariants.{Waits, Collides};
ghost use Rattle.table.specs.Pick.{pick};
ghost use Rattle.table.specs.Bytes.{functions, root};
ghost use Rattle.table.specs.Working.{IsNode};
ghost use Rattle.list.specs.Tags.{tagged};
ghost use Rattle.rules.specs.State.{entry};
ghost use Rattle.rules.specs.Step.{answered, taken};
ghost use Rattle.rules.specs.Circuit.{act_of, circuit_of};
ghost use Rattle.circuit.specs.Meaning.{reply_of, stepped_as, state_as};
ghost use Rattle.circuit.specs.Working.{GroupedIf, Stands, why_not};

use crate::groups::Groups;
use crate::sorts::Ready;
use crate::types::Answer;
use crate::{sorts, steps, store, tracking};
use table::decoded::Decoded;
use table::{Node, Reason, decoded};

// 22 for a tagged call, 23 for one that isn't.
fn why_blocked(tags: &[u8], n: Node) -> Reason
    ensures { result ≡ pick (tagged tags.now n.0) Waits Collides }
{
    if list::marks(tags, n) {
        Reason::Waits
    } else {
        Reason::Collides
    }
}

// Why a node has no step: 21 to 23, where it has none.
pub(crate) fn why_not(
    design: &Decoded,
    tags: &[u8],
    status: &[u8; 512],
    second: &[bool; 512],
    value: &[u32; 512],
    occupant: &[u16; 32],
    n: Node,
) -> Option<Reason>
    requires { IsNode (bytes design.now) n.0 }
    ensures { (d : List ℕ) → result ≡ why_not (tagged tags.now n.0) (act_of (bytes design.now)
        (state_as status.now second.now value.now d occupant.now) n.0) }
{
    match sorts::sort_at(design, status, second, value, n) {
        Ready::Yes => None,
        Ready::No => Some(Reason::NoStep),
        Ready::IfFree => {
            if tracking::barred(design, occupant, n) {
                Some(why_blocked(tags, n))
            } else {
                None
            }
        }
    }
}

// Main's root.
pub(crate) fn top(design: &Decoded) -> Node
    ensures { (result.0 ≡ root (bytes design.now) (functions (bytes design.now))) × (result.0 ≤ 512)
        × (1 ≤ result.0) }
{
    let main = decoded::main(design.cells);
    decoded::root(design.cells, main)
}

// What is said of a step taken: main's value, if its root is done now.
fn told(status: &[u8; 512], value: &[u32; 512], top: Node) -> Answer
    requires { top.0 ≤ 512 }
    ensures { reply_of result
        ≡ pick (entry status.now 0 top.0 == 3) (answered (entry value.now 0 top.0)) taken }
{
    if store::status_at(status, top) == 3 {
        return Answer::Answered(store::value_at(value, top));
    }
    Answer::Taken
}

// Where the nodes are grouped by function, a reset goes along these.
pub(crate) fn turn(
    design: &Decoded,
    tags: &[u8],
    groups: Option<&Groups>,
    status: &mut [u8; 512],
    second: &mut [bool; 512],
    value: &mut [u32; 512],
    registers: &mut [u32; 256],
    occupant: &mut [u16; 32],
    n: Node,
) -> Answer
    requires { GroupedIf (bytes design.now) groups
        × Stands (bytes design.now) (state_as status.old second.old value.old registers.old occupant.old) }
    ensures { stepped_as result
        (state_as status.new second.new value.new registers.new occupant.new)
        ≡ circuit_of (bytes design.now) tags.now
        (state_as status.old second.old value.old registers.old occupant.old)
        n.0 }
{
    if n.0 == 0 {
        return Answer::Refused(Reason::NoNode, Node(0));
    }
    let last = decoded::last(design.cells);
    if last.0 < n.0 {
        return Answer::Refused(Reason::NoNode, Node(0));
    }
    let root = top(design);
    if store::status_at(status, root) == 3 {
        return Answer::Refused(Reason::Done, n);
    }
    if let Some(why) = why_not(design, tags, status, second, value, occupant, n) {
        return Answer::Refused(why, n);
    }
    steps::take(
        design, groups, status, second, value, registers, occupant, n,
    );
    told(status, value, root)
}
