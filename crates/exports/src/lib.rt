// The library for C and Rust: seven functions on numbers and slices. None has a requires; that the areas lent are there
// is the caller's to see to. include/cantivorex.h declares them for C, which has a name for each form with an index
// and without, and is answered document 01's numbers.

#![tactic(auto)]

ghost use Rattle.std.specs.Prelude.{◌≡◌, [], ◌∷◌, length};
ghost use Rattle.exports.specs.Exports.{ChecksOut, ChecksIndexedOut, ClosesOut, ClosesIndexedOut};
ghost use Rattle.exports.specs.Exports.{RulesOut, HoldsOut, CountsOut, PartOut};
ghost use Rattle.exports.specs.Exports.{shorter, values, over};
ghost use Rattle.files.specs.Answers.{part_of};

use files::{Counts, Part, both, held, model};
use running::Verdict;

// How many values a verdict has.
const VALUES: usize = 10;

// Copies items to the front, as far as there is room.
fn put<T: Copy>(items: &[T], out: &mut [T])
    ensures { out.new ≡ over items.now out.old }
{
    let n = items.len().min(out.len());
    out[..n].copy_from_slice(&items[..n]);
}

// Writes a verdict's ten values to the front.
fn put_verdict(v: Verdict, out: &mut [u64])
    ensures { out.new ≡ over (values v) out.old }
{
    let part = v.part;
    let row = [
        v.number as u64,
        v.step as u64,
        v.fact as u64,
        v.rounds as u64,
        v.held as u64,
        v.kind as u64,
        v.round as u64,
        part.mark as u64,
        part.start as u64,
        part.size as u64,
    ];
    put(&row, out);
}

// The verdict on a model and a trace: its number, and its ten values at the front of `out`. Without room for them the
// answer is 1 and nothing is changed.
#[unsafe(no_mangle)]
pub extern "C" fn cantivorex_check(
    model: &[u8],
    trace: &[u8],
    state: &mut [u8],
    table: &mut [u16],
    names: &mut [u8],
    out: &mut [u64],
) -> u8
    ensures { ChecksOut (shorter out.old 10) model.now trace.now
        (record { state = state.old; table = table.old; names = names.old })
        (record { state = state.new; table = table.new; names = names.new })
        out.old out.new result }
{
    if out.len() < VALUES {
        return 1;
    }
    let v = checking::check(model, trace, state, table, names);
    put_verdict(v, out);
    v.number
}

// The same with an index lent, which then holds each body place's clause number, by fact and then clause.
#[unsafe(no_mangle)]
pub extern "C" fn cantivorex_check_indexed(
    model: &[u8],
    trace: &[u8],
    state: &mut [u8],
    table: &mut [u16],
    names: &mut [u8],
    index: &mut [u16],
    out: &mut [u64],
) -> u8
    ensures { ChecksIndexedOut (shorter out.old 10) model.now trace.now
        (record { state = state.old; table = table.old; names = names.old })
        (record { state = state.new; table = table.new; names = names.new })
        index.old index.new out.old out.new result }
{
    if out.len() < VALUES {
        return 1;
    }
    let v = checking::check_indexed(model, trace, state, table, names, index);
    put_verdict(v, out);
    v.number
}

// Closing by itself: 0, with the number of rounds in the first entry of `out`, or a refusal's number, with nothing
// changed. Without room for the rounds the answer is 1.
#[unsafe(no_mangle)]
pub extern "C" fn cantivorex_close(
    model: &[u8],
    state: &[u8],
    table: &mut [u16],
    out: &mut [u64],
) -> u8
    ensures { ClosesOut (shorter out.old 1) model.now state.now
        table.old table.new out.old out.new result }
{
    if out.len() < 1 {
        return 1;
    }
    match closing::close(model, state, table) {
        Ok(rounds) => {
            out[0] = rounds as u64;
            0
        }
        Err(refusal) => refusal.number(),
    }
}

// Closing by itself with an index lent: 0, with the numbers of rounds and of body places crossed in the first two
// entries of `out`, or a refusal's number, with nothing changed. Without room for them the answer is 1.
#[unsafe(no_mangle)]
pub extern "C" fn cantivorex_close_indexed(
    model: &[u8],
    state: &[u8],
    table: &mut [u16],
    index: &mut [u16],
    out: &mut [u64],
) -> u8
    ensures { ClosesIndexedOut (shorter out.old 2) model.now state.now
        table.old table.new index.old index.new out.old
        out.new result }
{
    if out.len() < 2 {
        return 1;
    }
    match closing::close_indexed(model, state, table, index) {
        Ok(worked) => {
            out[0] = worked.rounds as u64;
            out[1] = worked.crossings as u64;
            0
        }
        Err(refusal) => refusal.number(),
    }
}

// Every rule that fires in the last state reached: 0, with how many in the first entry of `out` and their numbers at
// the front of `list`, or a refusal's number, with nothing changed. Without room for the count the answer is 1.
#[unsafe(no_mangle)]
pub extern "C" fn cantivorex_rules(
    model: &[u8],
    trace: &[u8],
    state: &mut [u8],
    table: &mut [u16],
    names: &mut [u8],
    index: &mut [u16],
    list: &mut [u16],
    out: &mut [u64],
) -> u8
    ensures { RulesOut (shorter out.old 1) model.now trace.now
        (record { state = state.old; table = table.old; names = names.old })
        (record { state = state.new; table = table.new; names = names.new })
        index.old index.new list.old list.new out.old
        out.new result }
{
    if out.len() < 1 {
        return 1;
    }
    match firing::rules(model, trace, state, table, names, index, list) {
        Ok(n) => {
            out[0] = n as u64;
            0
        }
        Err(refusal) => refusal.number(),
    }
}

// Whether a fact holds after all steps: 0, with its round number (65,535 where it is absent) and the rounds run on the
// last state in the first two entries of `out`, or a refusal's number. With fewer than two entries: 1, and nothing is
// changed.
#[unsafe(no_mangle)]
pub extern "C" fn cantivorex_holds(
    model: &[u8],
    trace: &[u8],
    fact: usize,
    state: &mut [u8],
    table: &mut [u16],
    names: &mut [u8],
    index: &mut [u16],
    out: &mut [u64],
) -> u8
    ensures { HoldsOut (shorter out.old 2) model.now trace.now fact
        (record { state = state.old; table = table.old; names = names.old })
        (record { state = state.new; table = table.new; names = names.new })
        index.old index.new out.old out.new result }
{
    if out.len() < 2 {
        return 1;
    }
    match holding::holds(model, trace, fact, state, table, names, index) {
        Ok(fact) => {
            out[0] = fact.round as u64;
            out[1] = fact.rounds as u64;
            0
        }
        Err(refusal) => refusal.number(),
    }
}

// Writes F and a model's counts to the front.
fn put_figures(facts: usize, n: Counts, out: &mut [u64])
    ensures { out.new
        ≡ over (facts ∷ n.clauses ∷ n.rules ∷ n.goals ∷ []) out.old }
{
    let row = [
        facts as u64,
        n.clauses as u64,
        n.rules as u64,
        n.goals as u64,
    ];
    put(&row, out);
}

// What a model has: 0, with its facts, clauses, rules and goals in the first four entries of `out`, or a
// refusal's number, with nothing changed. Without room for them the answer is 1.
#[unsafe(no_mangle)]
pub extern "C" fn cantivorex_count(model: &[u8], out: &mut [u64]) -> u8
    ensures { CountsOut (shorter out.old 4) model.now out.old
        out.new result }
{
    if out.len() < 4 {
        return 1;
    }
    match model::judge_model(model) {
        Ok(counts) => {
            put_figures(held::facts(model), counts, out);
            0
        }
        Err(fault) => fault.refusal.number(),
    }
}

// Copies bytes to the front, as far as there is room; answers how many there are. Its caller, which calls it last,
// needs no stack for it.
#[inline(never)]
fn copy(bytes: &[u8], out: &mut [u8]) -> usize
    ensures count { result ≡ length bytes.now }
    ensures front { out.new ≡ over bytes.now out.old }
{
    // Not by `put`, tried: that is C's memcpy, whose first call takes 3 KiB of stack, and 44 bytes are allowed.
    for (i, byte) in bytes.iter().enumerate() {
        if i == out.len() {
            break;
        }
        out[i] = *byte;
    }
    bytes.len()
}

// The bytes at a place of the file marked, as far as the file has them: their number, and they at the front of `out` as
// far as it has room.
#[unsafe(no_mangle)]
pub extern "C" fn cantivorex_part<'a>(
    model: &'a [u8],
    trace: &'a [u8],
    mark: u8,
    start: usize,
    size: usize,
    out: &mut [u8],
) -> usize
    ensures { PartOut
        (part_of model.now trace.now (record { mark = mark; start = start; size = size }))
        out.old out.new result }
{
    // The file is chosen before its bytes are looked at: then nothing has to wait on the stack.
    let file = if mark == 1 { trace } else { model };
    // A mark of neither file marks nothing.
    let size = if mark < 2 { size } else { 0 };
    let at = Part {
        mark: 0,
        start,
        size,
    };
    copy(both::part(file, file, at), out)
}
