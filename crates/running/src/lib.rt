// The run of a judged pair: its steps, and what is then asked of the last state reached. The caller has judged the pair
// and lends buffers of enough room.

#![tactic(auto)]

ghost use Rattle.std.specs.Prelude.{◌≡◌, false, [], ◌<◌, ◌≤◌, length};
ghost use Rattle.std.proofs.Math.Option.{none};
ghost use Rattle.meaning.specs.Run.{asked_of};
ghost use Rattle.files.specs.Files.{pair_fault, model_of_lem, trace_of};
ghost use Rattle.files.specs.Known.{GoalCodes};
ghost use Rattle.closing.specs.Closing.{numbered, IndexHolds, no_places_lem};
ghost use Rattle.stepping.specs.Conditions.{names_in};
ghost use Rattle.reaching.specs.Reaching.{Ready, lent_of, SameBuffers, aimed};
ghost use Rattle.running.specs.Outcomes.{outcome, ran, Left};
ghost use Rattle.running.specs.Running.{ending_of, Asked, Led, Shows, Numbers, EndsAs};

use closing::Index;
use files::{Part, held, trace};
use reaching::{Buffers, Steps};
use records::{Kind, Refusal};
use sections::Role;
use stepping::conditions;
use stepping::conditions::{Condition, Lists};

// Document 01's verdict: its number and the values that the line shows, and the part at fault. An unmet condition has a
// kind, 1 positive or 2 negative, and a negative one the round in which its fact arose; 0 and 65,535 stand for none.
// All are numbers, since C is handed them as they are.
#[derive(Clone, Copy)]
pub struct Verdict {
    pub number: u8,
    pub step: usize,
    pub fact: usize,
    pub rounds: usize,
    pub held: usize,
    pub kind: u8,
    pub round: usize,
    pub part: Part,
}

// How a run ends: the goal is met, a step is blocked, the attack state has a condition that isn't met, or the formula
// is true.
#[derive(Clone, Copy)]
pub enum Ending {
    Attack,
    Blocked(Condition),
    NotMet(Condition),
    Upheld,
}

// How and at which step a run ended, and the rounds of all states reached.
#[derive(Clone, Copy)]
pub struct Ended {
    pub ending: Ending,
    pub step: usize,
    pub rounds: usize,
}

// Whether the attack state that the trace names is met in the closure that the table has. It makes no names.
fn ask_state(model: &[u8], trace: &[u8], table: &[u16], names: &[u8]) -> Ending
    requires { (pair_fault model.now trace.now ≡ none) × (4096 ≤ length table.now)
        × ((trace_of trace.now).goal < length (model_of_lem model.now).goals) }
    ensures { ending_of result ≡ asked_of (aimed model.now trace.now)
        (numbered table.now) (names_in names.now) [] }
{
    let goal = held::record(model, Role::Goals, reaching::goal_of(trace));
    let asked = Lists {
        p: lists::list_of(goal, Kind::Goal, 0),
        n: lists::list_of(goal, Kind::Goal, 1),
        names: &goal[..0],
    };
    match asked.first_unmet(table, names) {
        Some(c) => Ending::NotMet(c),
        None => Ending::Attack,
    }
}

// What is asked of the last state after all steps, in the closure that the table has: whether the attack state is met,
// or the formula, which has codes, is false.
fn ask(
    model: &[u8],
    trace: &[u8],
    codes: &[u8],
    table: &[u16],
    names: &[u8],
    kept: &mut [u8],
) -> Ending
    requires { (pair_fault model.now trace.now ≡ none) × (4096 ≤ length table.now)
        × GoalCodes model.now (trace_of trace.now).goal codes.now }
    ensures { Asked (aimed model.now trace.now) (numbered table.now)
        (names_in names.now) kept.old (ending_of result) }
{
    if codes.is_empty() {
        return ask_state(model, trace, table, names);
    }
    if past::advance(codes, table, kept) {
        Ending::Upheld
    } else {
        Ending::Attack
    }
}

// The end of a run whose steps led so: a blocked step, or what is asked of the last state, which is closed for it.
fn finish(
    model: &[u8],
    trace: &[u8],
    codes: &[u8],
    reached: Steps,
    lent: &mut Buffers,
    kept: &mut [u8],
    index: &Index,
) -> Ended
    requires { Led model.now trace.now codes.now (lent_of lent.old) kept.old reached
        index.now.entries.now index.now.ends.now index.now.starts.now }
    ensures same_buffers { SameBuffers lent.old lent.new }
    ensures ends { EndsAs model.now trace.now (lent_of lent.old) (lent_of lent.new) result }
{
    let state = &mut *lent.state;
    let table = &mut *lent.table;
    let names = &mut *lent.names;
    match reached.stop {
        Some(c) => Ended {
            ending: Ending::Blocked(c),
            step: reached.fired,
            rounds: reached.rounds,
        },
        None => {
            let rounds = closing::close_judged(model, state, table, *index);
            Ended {
                ending: ask(model, trace, codes, table, names, kept),
                step: reached.fired,
                rounds: reached.rounds + rounds,
            }
        }
    }
}

// The verdict of a run that ended so, with the facts held and the round numbers of the last state.
fn verdict_of(model: &[u8], trace: &[u8], ended: Ended, held: usize, table: &[u16]) -> Verdict
    requires { (pair_fault model.now trace.now ≡ none)
        × Shows (outcome model.now trace.now) (length (trace_of trace.now).steps) ended held
        × Numbers (model_of_lem model.now) (outcome model.now trace.now) table.now }
    ensures { result
        ≡ ran model.now trace.now (outcome model.now trace.now) }
{
    let Ended {
        ending,
        step,
        rounds,
    } = ended;
    match ending {
        Ending::Attack => Verdict {
            number: 0,
            step,
            fact: 65535,
            rounds,
            held,
            kind: 0,
            round: 65535,
            part: Part {
                mark: 0,
                start: 0,
                size: 0,
            },
        },
        Ending::Blocked(c) => Verdict {
            number: conditions::refusal_of(c).number(),
            step,
            fact: conditions::fact_of(c),
            rounds,
            held,
            kind: conditions::kind_of(c),
            round: conditions::round_of(c, table),
            part: trace::entry_part(trace, 1 + step),
        },
        Ending::NotMet(c) => Verdict {
            number: Refusal::NoAttack.number(),
            step,
            fact: conditions::fact_of(c),
            rounds,
            held,
            kind: conditions::kind_of(c),
            round: conditions::round_of(c, table),
            part: held::goal_part(model, reaching::goal_of(trace)),
        },
        Ending::Upheld => Verdict {
            number: Refusal::NoAttack.number(),
            step,
            fact: 65535,
            rounds,
            held,
            kind: 0,
            round: 65535,
            part: held::goal_part(model, reaching::goal_of(trace)),
        },
    }
}

// The verdict on a judged pair whose steps led so.
fn conclude(
    model: &[u8],
    trace: &[u8],
    codes: &[u8],
    reached: Steps,
    lent: &mut Buffers,
    kept: &mut [u8],
    index: &Index,
) -> Verdict
    requires { Led model.now trace.now codes.now (lent_of lent.old) kept.old reached
        index.now.entries.now index.now.ends.now index.now.starts.now }
    ensures same_buffers { SameBuffers lent.old lent.new }
    ensures verdict { (result ≡ ran model.now trace.now (outcome model.now trace.now))
        × Left (model_of_lem model.now) (outcome model.now trace.now) (lent_of lent.old) (lent_of lent.new) }
{
    let ended = finish(model, trace, codes, reached, lent, kept, index);
    let state = &mut *lent.state;
    let table = &mut *lent.table;
    verdict_of(model, trace, ended, facts::count(state, 512), table)
}

// A run is the steps and what is concluded from them. These are two calls in each form of it, and not a function: that
// would have a frame of its own on a small board's stack.

// Runs a judged pair, with no index.
pub fn run_swept(
    model: &[u8],
    trace: &[u8],
    state: &mut [u8],
    table: &mut [u16],
    names: &mut [u8],
) -> Verdict
    requires { Ready model.now trace.now (record { state = state.now; table = table.old; names = names.old }) }
    ensures { (result ≡ ran model.now trace.now (outcome model.now trace.now))
        × Left (model_of_lem model.now) (outcome model.now trace.now)
        (record { state = state.entry.now; table = table.old; names = names.old })
        (record { state = state.exit.now; table = table.new; names = names.new }) }
{
    let empty = [0u16; 1];
    let index = Index {
        entries: &empty[..0],
        ends: &empty[..0],
        starts: &empty[..0],
    };
    let codes = reaching::goal_codes(model, trace);
    let mut kept = [0u8; 32];
    let mut lent = Buffers {
        state,
        table,
        names,
    };
    let reached = reaching::reach(model, trace, codes, &mut lent, &mut kept, &index);
    conclude(model, trace, codes, reached, &mut lent, &mut kept, &index)
}

// Runs a judged pair, by an index of the model's clauses, which is built once for all states.
pub fn run_indexed(
    model: &[u8],
    trace: &[u8],
    state: &mut [u8],
    table: &mut [u16],
    names: &mut [u8],
    index: &mut [u16],
) -> Verdict
    requires { Ready model.now trace.now (record { state = state.now; table = table.old; names = names.old })
        × (no_places_lem model.now index.old ≡ false) }
    ensures { (result ≡ ran model.now trace.now (outcome model.now trace.now))
        × Left (model_of_lem model.now) (outcome model.now trace.now)
        (record { state = state.entry.now; table = table.old; names = names.old })
        (record { state = state.exit.now; table = table.new; names = names.new })
        × IndexHolds (model_of_lem model.now).clauses index.old index.new }
{
    let mut ends = [0u16; 4097];
    let mut starts = [0u16; 4096];
    let n = closing::build_index(model, index, &mut ends, &mut starts);
    let index = Index {
        entries: index,
        ends: &ends,
        starts: &starts[..n],
    };
    let codes = reaching::goal_codes(model, trace);
    let mut bits = [0u8; 32];
    let mut lent = Buffers {
        state,
        table,
        names,
    };
    let reached = reaching::reach(model, trace, codes, &mut lent, &mut bits, &index);
    conclude(model, trace, codes, reached, &mut lent, &mut bits, &index)
}
