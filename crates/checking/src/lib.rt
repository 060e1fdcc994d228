// The verdict on a pair of files, and what it leaves in the lent buffers.

#![tactic(auto)]

ghost use Rattle.std.specs.Prelude.{◌≡◌};
ghost use Rattle.records.specs.Refusals.{refusal_number};
ghost use Rattle.checking.specs.Verdict.{Checked, CheckedIndexed, refused, no_space_lem};
ghost use Rattle.running.specs.Outcomes.{nothing};
ghost use Rattle.checking.specs.Passing.{Passed};

use files::{Counts, Part, both};
use records::Refusal;
use running::Verdict;

// The verdict of a refusal, with the part at fault.
fn refuse(refusal: Refusal, part: Part) -> Verdict
    ensures { result ≡ refused (refusal_number refusal) part }
{
    Verdict {
        number: refusal.number(),
        step: 0,
        fact: 65535,
        rounds: 0,
        held: 0,
        kind: 0,
        round: 65535,
        part,
    }
}

// No room: the empty part at the model's start.
fn refuse_room() -> Verdict
    ensures { result ≡ refused 1 nothing }
{
    let at = Part {
        mark: 0,
        start: 0,
        size: 0,
    };
    refuse(Refusal::Room, at)
}

// Whether what is lent is too short for a state, its round numbers or its names.
pub fn no_space(state: &[u8], table: &[u16], names: &[u8]) -> bool
    ensures { result
        ≡ no_space_lem (record { state = state.entry.now; table = table.now; names = names.now }) }
{
    closing::no_room(state, table) | (names.len() < 128)
}

// The verdict on a model and a trace. A refusal leaves the buffers as they were; otherwise the first 512 bytes hold the
// last state reached, the first 4,096 entries its round numbers and the first 128 bytes of `names` its used names.
pub fn check(
    model: &[u8],
    trace: &[u8],
    state: &mut [u8],
    table: &mut [u16],
    names: &mut [u8],
) -> Verdict
    ensures { Checked model.now trace.now
        (record { state = state.entry.now; table = table.old; names = names.old })
        (record { state = state.exit.now; table = table.new; names = names.new }) result }
{
    if no_space(state, table, names) {
        return refuse_room();
    }
    match both::judge_pair(model, trace) {
        Ok(_) => running::run_swept(model, trace, state, table, names),
        Err(refused) => refuse(refused.refusal, refused.part),
    }
}

// Runs a pair whose files have passed, but for the trace's own numbers, for a model of so many clauses, rules and
// goals: room for the index, then the trace, then the run.
fn check_built(
    model: &[u8],
    trace: &[u8],
    counts: Counts,
    state: &mut [u8],
    table: &mut [u16],
    names: &mut [u8],
    index: &mut [u16],
) -> Verdict
    requires { Passed model.now trace.now (record { state = state.now; table = table.old; names = names.old })
        counts }
    ensures { CheckedIndexed model.now trace.now
        (record { state = state.entry.now; table = table.old; names = names.old })
        (record { state = state.exit.now; table = table.new; names = names.new })
        index.old index.new result }
{
    if closing::no_places(model, counts.clauses, index) {
        return refuse_room();
    }
    match both::judge_steps(trace, counts) {
        Ok(_) => running::run_indexed(model, trace, state, table, names, index),
        Err(refused) => refuse(refused.refusal, refused.part),
    }
}

// The verdict on a model and a trace, with an index lent: as without one, and the index then holds each body place's
// clause number, by fact and then clause. With fewer entries than the model has body places it is refused, before the
// trace's own numbers. It is a second function since C calls both.
pub fn check_indexed(
    model: &[u8],
    trace: &[u8],
    state: &mut [u8],
    table: &mut [u16],
    names: &mut [u8],
    index: &mut [u16],
) -> Verdict
    ensures { CheckedIndexed model.now trace.now
        (record { state = state.entry.now; table = table.old; names = names.old })
        (record { state = state.exit.now; table = table.new; names = names.new })
        index.old index.new result }
{
    if no_space(state, table, names) {
        return refuse_room();
    }
    match both::judge_files(model, trace) {
        Ok(counts) => check_built(model, trace, counts, state, table, names, index),
        Err(refused) => refuse(refused.refusal, refused.part),
    }
}
