// Whether one fact holds in the last state after a trace: that state is closed only up to the round in which the fact
// arrives.

#![tactic(auto)]

ghost use Rattle.std.specs.Prelude.{◌≡◌, false, ◌<◌};
ghost use Rattle.records.specs.Refusals.{numbered as by_number};
ghost use Rattle.sections.specs.declared.Role.{Role};
ghost use Rattle.files.specs.Files.{section_of, model_of_lem};
ghost use Rattle.worklist.specs.Working.{Placed, Listed};
ghost use Rattle.closing.specs.Closing.{IndexHolds, no_places_lem};
ghost use Rattle.reaching.specs.Reaching.{Ready, lent_of, SameBuffers};
ghost use Rattle.checking.specs.Passing.{Passed};
ghost use Rattle.holding.specs.Holding.{Asks, HoldsIn};

use closing::Index;
use files::{Counts, both, held};
use reaching::Buffers;
use records::Refusal;
use stepping::conditions;

// The fact's round number, 65,535 where it is absent, as C is handed it, and the rounds run on the last state.
#[derive(Clone, Copy)]
pub struct Held {
    pub round: usize,
    pub rounds: usize,
}

// Runs a judged pair's steps by an index of the model's clauses, and closes the last state for the fact asked for.
fn run_for(
    model: &[u8],
    trace: &[u8],
    asked: usize,
    lent: &mut Buffers,
    index: Index,
) -> Result<Held, Refusal>
    requires { Ready model.now trace.now (lent_of lent.old)
        × Listed (model_of_lem model.now).clauses index.entries.now index.ends.now
        × Placed (section_of model.now Role.Clauses) index.starts.now × (asked < 4096) }
    ensures same_buffers { SameBuffers lent.old lent.new }
    ensures asks { Asks model.now trace.now asked (lent_of lent.old) (lent_of lent.new) (by_number result) }
{
    let codes = reaching::goal_codes(model, trace);
    let mut kept = [0u8; 32];
    let reached = reaching::reach(model, trace, codes, lent, &mut kept, &index);
    match reached.stop {
        Some(c) => Err(conditions::refusal_of(c)),
        None => {
            let state = &mut *lent.state;
            let table = &mut *lent.table;
            let worked = closing::close_worked(model, state, table, index, asked);
            Ok(Held {
                round: table[asked] as usize,
                rounds: worked.rounds,
            })
        }
    }
}

// The same with the index built first, once for all states.
fn run_built(
    model: &[u8],
    trace: &[u8],
    asked: usize,
    lent: &mut Buffers,
    index: &mut [u16],
) -> Result<Held, Refusal>
    requires { Ready model.now trace.now (lent_of lent.old)
        × (no_places_lem model.now index.old ≡ false) × (asked < 4096) }
    ensures same_buffers { SameBuffers lent.old lent.new }
    ensures asks { Asks model.now trace.now asked (lent_of lent.old) (lent_of lent.new) (by_number result)
        × IndexHolds (model_of_lem model.now).clauses index.old index.new }
{
    let mut ends = [0u16; 4097];
    let mut starts = [0u16; 4096];
    let n = closing::build_index(model, index, &mut ends, &mut starts);
    let index = Index {
        entries: index,
        ends: &ends,
        starts: &starts[..n],
    };
    run_for(model, trace, asked, lent, index)
}

// Whether the fact holds, for a pair whose files have passed, but for the trace's own numbers, with a model of so many
// clauses, rules and goals: room for the index, then the trace, then the fact, then the run.
fn holds_passed(
    model: &[u8],
    trace: &[u8],
    counts: Counts,
    asked: usize,
    state: &mut [u8],
    table: &mut [u16],
    names: &mut [u8],
    index: &mut [u16],
) -> Result<Held, Refusal>
    requires { Passed model.now trace.now (record { state = state.now; table = table.old; names = names.old })
        counts }
    ensures { HoldsIn model.now trace.now asked
        (record { state = state.entry.now; table = table.old; names = names.old })
        (record { state = state.exit.now; table = table.new; names = names.new })
        index.old index.new (by_number result) }
{
    if closing::no_places(model, counts.clauses, index) {
        return Err(Refusal::Room);
    }
    both::judge_steps(trace, counts)?;
    if held::facts(model) <= asked {
        return Err(Refusal::Fact);
    }
    let mut lent = Buffers {
        state,
        table,
        names,
    };
    run_built(model, trace, asked, &mut lent, index)
}

// Whether a fact holds after all steps: held with its round number, or absent, and the rounds run on the last state; or
// a refusal. A refusal changes nothing, but that a step which can't fire leaves all as the check does.
pub fn holds(
    model: &[u8],
    trace: &[u8],
    asked: usize,
    state: &mut [u8],
    table: &mut [u16],
    names: &mut [u8],
    index: &mut [u16],
) -> Result<Held, Refusal>
    ensures { HoldsIn model.now trace.now asked
        (record { state = state.entry.now; table = table.old; names = names.old })
        (record { state = state.exit.now; table = table.new; names = names.new })
        index.old index.new (by_number result) }
{
    if checking::no_space(state, table, names) {
        return Err(Refusal::Room);
    }
    let counts = both::judge_files(model, trace)?;
    holds_passed(model, trace, counts, asked, state, table, names, index)
}
