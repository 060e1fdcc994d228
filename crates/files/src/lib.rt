// Reads model and trace files: the first fault of a pair with the part at fault, and what a judged file holds.
// model: a model's faults; trace: a trace's; both: the pair in document 01's order, and the part at fault; held: what
// is in judged files.

#![tactic(auto)]

ghost use Rattle.std.specs.Prelude.{◌≡◌};

pub mod both;
pub mod held;
pub mod model;
pub mod trace;

use records::Refusal;

// How many clauses, rules and goals a judged model has, its attack states and formulas. With F in it too closing would
// need more stack.
#[derive(Clone, Copy)]
pub struct Counts {
    pub clauses: usize,
    pub rules: usize,
    pub goals: usize,
}

// A part of one of the two files: whose, 0 the model's or 1 the trace's, where it starts and how many bytes it has. The
// mark is a number, since C is handed it and may ask for any.
#[derive(Clone, Copy)]
pub struct Part {
    pub mark: u8,
    pub start: usize,
    pub size: usize,
}

// A refusal of a pair of files: why, and the part at fault.
#[derive(Clone, Copy)]
pub struct Refused {
    pub refusal: Refusal,
    pub part: Part,
}

// Its refusal, where no part is handed back.
impl From<Refused> for Refusal {
    ghost from_gives = { λ r k. k ≡ r.refusal };

    fn from(refused: Refused) -> Refusal {
        refused.refusal
    }
}
