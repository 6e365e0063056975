// Why something that is handed in is refused, and where.
ghost use Rattle.std.specs.Prelude.{◌≡◌, Some};
ghost use Rattle.table.specs.Refusals.{number_of, refusal_text};

use crate::Node;
use std::fmt;

// Document 01's and 02's reasons by rising number: of the table 1 to 9 and 25, of the tags 10, of a start 11 and 26, of a step 12 and
// 20 to 24.
#[derive(Clone, Copy, PartialEq, Eq)]
pub enum Reason {
    // 1: a table under 4 bytes.
    Short,
    // 2: F or N outside its range.
    Sizes,
    // 3: a table of another length than F and N say.
    Length,
    // 4: a root, first or next that leads nowhere, or a node that is named other than once.
    Links,
    // 5: a field that its kind doesn't allow.
    Fields,
    // 6: a callee that is no function, or comes after its caller.
    Callee,
    // 7: another number of children than kind and operation ask for.
    Children,
    // 8: a parameter or a bound that isn't in scope.
    Scope,
    // 9: a self call that isn't in tail position.
    Tail,
    // 10: a lent list of the wrong length, or a tag where none may be.
    Tags,
    // 11: another number of arguments than main has parameters.
    Arguments,
    // 12: a step asked at what is no node.
    NoNode,
    // 20: main has answered.
    Done,
    // 21: the node has no step.
    NoStep,
    // 22: a tagged call waits for its resource.
    Waits,
    // 23: a call without a tag meets an occupied resource.
    Collides,
    // 24: a state that can't be stepped.
    Astray,
    // 25: a constant wider than its function.
    Constant,
    // 26: a listed call that the tags lack.
    Untagged,
}

impl Reason {
    // The number that the documents give: 1 to 12, then 20 to 26. By the reason's place: numbers written at the variants would become a
    // table in read-only memory, and `tools/readonly` takes none of that size.
    pub fn number(self) -> u8
        ensures { result ≡ number_of self }
    {
        let place = self as u8;
        if place < 12 { place + 1 } else { place + 8 }
    }
}

// A reason and the node where it was met first, 0 where none is named.
#[derive(Clone, Copy, PartialEq, Eq)]
pub struct Refusal {
    pub reason: Reason,
    pub place: Node,
}

// A refusal that names no node.
impl From<Reason> for Refusal {
    ghost from_gives = { λ reason r. r ≡ record { reason = reason; place = record { 0 = 0 } } };

    fn from(reason: Reason) -> Refusal {
        Refusal {
            reason,
            place: Node(0),
        }
    }
}

impl fmt::Display for Refusal {
    ghost output = { λ r. Some (refusal_text r) };

    fn fmt<W: fmt::Write>(&self, f: &mut fmt::Formatter<W>) -> fmt::Result {
        write!(f, "refused {} {}", self.reason.number(), self.place)
    }
}
