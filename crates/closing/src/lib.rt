// Closing: the rounds of a state under a model's clauses, in a lent round table. The table is the only memory: in the
// sweep for round r + 1 a body fact counts where its number is at most r, so that a head found in this sweep cannot
// help in it.

#![tactic(auto)]

ghost use Rattle.std.specs.Prelude.{◌≡◌, false, cond, eqb, ◌+◌, ◌≤◌, ◌<◌, length, drop};
ghost use Rattle.std.proofs.Math.Option.{none};
ghost use Rattle.sets.specs.Sets.{every};
ghost use Rattle.facts.specs.Facts.{members};
ghost use Rattle.records.specs.Words.{word, words};
ghost use Rattle.records.specs.Refusals.{refused_by, numbered};
ghost use Rattle.lists.specs.Lists.{AllCut};
ghost use Rattle.records.specs.declared.Kind.{Kind};
ghost use Rattle.sections.specs.declared.Role.{Role};
ghost use Rattle.files.specs.Files.{section_of, clauses_in, model_of_lem, shape_fault};
ghost use Rattle.indexing.specs.Placing.{Cleared};
ghost use Rattle.worklist.specs.Working.{Placed, Listed, WorksFor};
ghost use Rattle.closing.specs.Closing.{Written, Bounded, Way, ClosesUnder, ClosesKnown, Closes};
ghost use Rattle.closing.specs.Closing.{no_room_lem, state_refusal, no_places_lem, Builds, Crosses, ClosesIndexed};
ghost use Rattle.closing.specs.Sweep.{Eight, stored, Body, up_to, swept, adds};

use files::{held, model};
use records::Refusal;
use sections::Role;
pub use worklist::{Index, Worked};

// The state's bytes: eight facts each.
const BYTES: usize = 512;

// None's number in the table, which is what C callers are handed: so it stays a number.
const OUTSIDE: u16 = 65535;

// No fact: closing for it goes through all rounds. The worklist takes the fact that is asked for as a number.
const NO_FACT: usize = 4096;

// So many clauses are swept before the worklist has looked through its table.
const FEW: usize = 32;

// Round 0 of a fact, by its bit.
fn number(bit: u8) -> u16
    ensures { result ≡ cond (eqb bit 1) 0 65535 }
{
    if bit == 1 { 0 } else { OUTSIDE }
}

// Round 0 of the eight facts of one byte.
fn start_byte(byte: u8, eight: &mut [u16])
    requires { length eight.old ≡ 8 }
    ensures { Eight byte eight.new }
{
    for (k, round) in eight.iter_mut().enumerate() {
        *round = number((byte >> k) % 2);
    }
}

// No fact has a number.
fn clear(table: &mut [u16])
    requires { 4096 ≤ length table.old }
    ensures { Written (λ _. 65535) table.old table.new }
{
    table[..4096].fill(OUTSIDE);
}

// Round 0: each stored fact has the number 0, every other none.
fn start(state: &[u8], table: &mut [u16])
    requires { 4096 ≤ length table.old }
    ensures { Written (stored (members state.now)) table.old table.new }
{
    clear(table);
    // The table's entries by their place: once `chunks_mut` is over, a proof knows the table's length alone.
    let bytes = &state[..state.len().min(BYTES)];
    for (i, byte) in bytes.iter().enumerate() {
        // Most bytes have no fact.
        if *byte > 0 {
            start_byte(*byte, &mut table[i * 8..i * 8 + 8]);
        }
    }
}

// Whether the fact at a place of these bytes has a number of at most r.
fn fact_stands(body: &[u8], i: usize, table: &[u16], r: u16) -> bool
    requires { (i + 2 ≤ length body.now) × (word (drop i body.now) < 4096) × (4096 ≤ length table.now) }
    ensures { result ≡ up_to table.now r (word (drop i body.now)) }
{
    table[records::word_at(body, i)] <= r
}

// Whether every fact of these bytes has a number of at most r.
fn stands(body: &[u8], table: &[u16], r: u16) -> bool
    requires { Body body.now × (4096 ≤ length table.now) }
    ensures { result ≡ every (up_to table.now r) (words body.now) }
{
    // Two facts in a turn: one by one, long bodies take half as long again, since where a body fails is hard to guess.
    let (pairs, last) = body.as_chunks::<4>();
    for pair in pairs {
        if !(fact_stands(pair, 0, table, r) & fact_stands(pair, 2, table, r)) {
            return false;
        }
    }
    last.is_empty() || fact_stands(last, 0, table, r)
}

// One round more: every head whose body stands in round r, and that has no number yet, gets r + 1. Answers whether
// there was one.
fn sweep(clauses: &[u8], table: &mut [u16], r: u16) -> bool
    requires { AllCut Kind.Clause clauses.now × Bounded (clauses_in clauses.now) × (4096 ≤ length table.old)
        × (r < 65535) }
    ensures { (result ≡ adds (clauses_in clauses.now) r table.old)
        × Written (swept (clauses_in clauses.now) r table.old)
        table.old table.new }
{
    let mut added = false;
    let mut rest = clauses;
    // Over `Records`, which looks whether each is whole, long bodies take twice as long and short ones a fifth longer.
    while !rest.is_empty() {
        let (clause, after) = rest.split_at(2 + records::word_at(rest, 0));
        let head = records::word_at(clause, 2);
        if table[head] == OUTSIDE && stands(&clause[4..], table, r) {
            table[head] = r + 1;
            added = true;
        }
        rest = after;
    }
    added
}

// The rounds of a state under judged clauses: the number of rounds, and each fact's round number in the table. The
// caller has judged the clauses' section and lends at least 4,096 entries.
fn close_clauses(clauses: &[u8], state: &[u8], table: &mut [u16]) -> usize
    requires { AllCut Kind.Clause clauses.now × Bounded (clauses_in clauses.now) × (4096 ≤ length table.old) }
    ensures { ClosesUnder (clauses_in clauses.now) state.now table.old
        table.new result }
{
    start(state, table);
    // Counted here: a sweep needs its round's number.
    let mut r: u16 = 0;
    while sweep(clauses, table, r) {
        r += 1;
    }
    r as usize
}

// The rounds of a state under a judged model's clauses, by sweeps. The caller has judged the model and lends at least
// 4,096 entries.
fn close_swept(model: &[u8], state: &[u8], table: &mut [u16]) -> usize
    requires { (shape_fault model.now ≡ none) × (4096 ≤ length table.old) }
    ensures { ClosesUnder (model_of_lem model.now).clauses state.now table.old
        table.new result }
{
    close_clauses(held::section(model, Role::Clauses), state, table)
}

// The same by the index of the model's clauses, with how many body places were crossed, up to the round in which the
// fact asked for arrives; through all rounds where it is absent.
pub fn close_worked(
    model: &[u8],
    state: &[u8],
    table: &mut [u16],
    index: Index,
    asked: usize,
) -> Worked
    requires { (shape_fault model.now ≡ none) × (4096 ≤ length table.old)
        × Listed (model_of_lem model.now).clauses index.entries.now index.ends.now
        × Placed (section_of model.now Role.Clauses) index.starts.now }
    ensures { WorksFor (model_of_lem model.now).clauses (members state.now) asked
        table.old table.new result }
{
    start(state, table);
    worklist::run(held::section(model, Role::Clauses), table, index, asked)
}

// The rounds of a state under a judged model's clauses, by the way that is lent: sweeps where the index has no
// starts, else the index. The caller has judged the model and lends at least 4,096 entries.
pub fn close_judged(model: &[u8], state: &[u8], table: &mut [u16], index: Index) -> usize
    requires { (shape_fault model.now ≡ none) × (4096 ≤ length table.old)
        × Way model.now index.entries.now index.ends.now index.starts.now }
    ensures { ClosesUnder (model_of_lem model.now).clauses state.now table.old
        table.new result }
{
    if index.starts.len() <= FEW {
        return close_swept(model, state, table);
    }
    close_worked(model, state, table, index, NO_FACT).rounds
}

// Refuses a state with a fact of F or more.
fn known_facts(model: &[u8], state: &[u8]) -> Result<(), Refusal>
    requires { shape_fault model.now ≡ none }
    ensures { refused_by result ≡ state_refusal model.now state.now }
{
    if facts::any_from(state, 512, held::facts(model)) {
        return Err(Refusal::Fact);
    }
    Ok(())
}

// Closes under a judged model's clauses; a state with a fact of F or more is refused.
fn close_known(model: &[u8], state: &[u8], table: &mut [u16]) -> Result<usize, Refusal>
    requires { (shape_fault model.now ≡ none) × (4096 ≤ length table.old) }
    ensures { ClosesKnown model.now state.now table.old
        table.new (numbered result) }
{
    known_facts(model, state)?;
    Ok(close_swept(model, state, table))
}

// Whether what is lent is too short for a state or its round numbers.
pub fn no_room(state: &[u8], table: &[u16]) -> bool
    ensures { result ≡ no_room_lem state.now table.now }
{
    (state.len() < 512) | (table.len() < 4096)
}

// Closing called by itself: judges what it is lent, fills the round table and answers the number of rounds, or refuses
// and changes nothing.
pub fn close(model: &[u8], state: &[u8], table: &mut [u16]) -> Result<usize, Refusal>
    ensures { Closes model.now state.now table.old table.new (numbered result) }
{
    if no_room(state, table) {
        return Err(Refusal::Room);
    }
    model::judge_model(model)?;
    close_known(model, state, table)
}

// Whether an index has fewer entries than a judged model of so many clauses has body places.
pub fn no_places(model: &[u8], clauses: usize, index: &[u16]) -> bool
    requires { (shape_fault model.now ≡ none) × (clauses ≡ length (model_of_lem model.now).clauses) }
    ensures { result ≡ no_places_lem model.now index.now }
{
    index.len() < indexing::places(held::section(model, Role::Clauses), clauses)
}

// Builds the index of a judged model's clauses, for which it has room, with ends that are zeros; answers how many
// clauses there are. The two arrays are the caller's own, who lends them on: there is no heap for them.
pub fn build_index(
    model: &[u8],
    index: &mut [u16],
    ends: &mut [u16; 4097],
    starts: &mut [u16; 4096],
) -> usize
    requires { (shape_fault model.now ≡ none) × (length model.now ≤ 65536)
        × (no_places_lem model.now index.old ≡ false) × Cleared ends.old × (length starts.old ≡ 4096) }
    ensures { Builds model.now index.old index.new ends.new
        starts.new result }
{
    let facts = held::facts(model);
    let clauses = held::section(model, Role::Clauses);
    indexing::build(clauses, facts, index, ends, starts)
}

// Closes by an index of a judged model's clauses, which is built first; a state with a fact of F or more is refused.
fn close_built(
    model: &[u8],
    state: &[u8],
    table: &mut [u16],
    index: &mut [u16],
) -> Result<Worked, Refusal>
    requires { (shape_fault model.now ≡ none) × (length model.now ≤ 65536) × (4096 ≤ length table.old)
        × (no_places_lem model.now index.old ≡ false) }
    ensures { Crosses (state_refusal model.now state.now) model.now
        state.now table.old table.new index.old index.new (numbered result) }
{
    known_facts(model, state)?;
    let mut ends = [0u16; 4097];
    let mut starts = [0u16; 4096];
    let n = build_index(model, index, &mut ends, &mut starts);
    let index = Index {
        entries: index,
        ends: &ends,
        starts: &starts[..n],
    };
    Ok(close_worked(model, state, table, index, NO_FACT))
}

// Closing called by itself with an index lent: as without one, and it answers the body places crossed too; the index
// then holds each body place's clause number, by fact and then clause. It is a second function since C calls both.
pub fn close_indexed(
    model: &[u8],
    state: &[u8],
    table: &mut [u16],
    index: &mut [u16],
) -> Result<Worked, Refusal>
    ensures { ClosesIndexed model.now state.now table.old
        table.new index.old index.new (numbered result) }
{
    if no_room(state, table) {
        return Err(Refusal::Room);
    }
    let counts = model::judge_model(model)?;
    if no_places(model, counts.clauses, index) {
        return Err(Refusal::Room);
    }
    close_built(model, state, table, index)
}
