// The circuit's state, and what its entries answer. Document 01's number and values of each case are in specs/Meaning.
use table::{Node, Reason, Refusal};

// Of each of 512 nodes status, second phase and value; of each of 32 functions 8 registers and an occupant, 0 if free.
// Node n is at n - 1; the registers of function f are at 8 (f - 1) to 8 f - 1, its occupant is at f - 1.
#[derive(Clone, Copy, PartialEq, Eq)]
pub struct State {
    pub status: [u8; 512],
    pub second: [bool; 512],
    pub value: [u32; 512],
    pub registers: [u32; 256],
    pub occupant: [Node; 32],
}

// A step's answer: taken, answered with main's value, or refused with reason and place.
#[derive(Clone, Copy, PartialEq, Eq)]
pub enum Answer {
    Taken,
    Answered(u32),
    Refused(Reason, Node),
}

#[derive(Clone, Copy, PartialEq, Eq)]
pub struct Stepped {
    pub answer: Answer,
    pub state: State,
}

// A start's answer; refused, its state is the one handed in.
#[derive(Clone, Copy, PartialEq, Eq)]
pub struct Started {
    pub opening: Result<(), Refusal>,
    pub state: State,
}

// How a run over a list ended, past its last node or at the first refusal, and after how many steps.
#[derive(Clone, Copy, PartialEq, Eq)]
pub struct Ran {
    pub steps: usize,
    pub halt: Result<(), Refusal>,
    pub state: State,
}

// How a run with a budget ends: main has answered, no step is possible, or as many steps as the budget are taken.
#[derive(Clone, Copy, PartialEq, Eq)]
pub enum Ended {
    Answered(u32),
    AtRest,
    Spent,
}

#[derive(Clone, Copy, PartialEq, Eq)]
pub struct Driven {
    pub steps: u32,
    pub ended: Result<Ended, Refusal>,
    pub state: State,
}
