// A formula from state to state: its value in each, with one bit kept for each code, so that no earlier state is looked
// at again. Nothing is asked of the codes: what is no formula has a value that means nothing.

#![tactic(auto)]

ghost use Rattle.std.specs.Prelude.{◌≡◌, ◌≤◌, ◌<◌, length};
ghost use Rattle.facts.specs.Facts.{room};
ghost use Rattle.records.specs.Codes.{over_one_lem};
ghost use Rattle.closing.specs.Closing.{numbered};
ghost use Rattle.past.specs.Keeping.{pushed, left, value_of, bit_of};
ghost use Rattle.past.specs.Keeping.{operated, stepped, values_in, Written, Turned, Advanced};

// The bytes of the kept bits: eight places each.
const BYTES: u32 = 32;

// The waiting values and one more.
fn push(waiting: u64, value: bool) -> u64
    ensures { result ≡ pushed waiting value }
{
    waiting % 9223372036854775808 * 2 + u64::from(value)
}

// Whether the operator stands before one formula.
fn over_one(code: usize) -> bool
    ensures { result ≡ over_one_lem code }
{
    matches!(code, 32768 | 32772..=32774)
}

// The waiting values that an operator leaves.
fn rest(code: usize, waiting: u64) -> u64
    ensures { result ≡ left code waiting }
{
    if over_one(code) {
        waiting / 2
    } else {
        waiting / 4
    }
}

// An operator's value, by its parts' and the bit that it kept. By their codes: not, and, or, implies, Yesterday, Once,
// Historically, Since. An enum of them, made from the code in one place, takes 26 lines more and spares no arm here.
fn value_of(code: usize, first: bool, second: bool, bit: bool) -> bool
    ensures { result ≡ value_of code first second bit }
{
    match code {
        32768 => !first,
        32769 => first & second,
        32770 => first | second,
        32771 => !first | second,
        32772 => bit,
        32773 => first | bit,
        32774 => first & !bit,
        _ => second | (first & bit),
    }
}

// The bit that an operator keeps.
fn bit_of(code: usize, first: bool, value: bool) -> bool
    ensures { result ≡ bit_of code first value }
{
    match code {
        32772 => first,
        32774 => !value,
        _ => value,
    }
}

// Writes the bit of a place, where the buffer has its byte.
fn keep(kept: &mut [u8], i: usize, bit: bool)
    ensures { Written kept.old i bit kept.new }
{
    if bit {
        facts::add(kept, BYTES, i);
    } else {
        facts::remove(kept, BYTES, i);
    }
}

// Whether the table has a number for the fact. The caller lends at least 4,096 entries.
fn stands(fact: usize, table: &[u16]) -> bool
    requires { 4096 ≤ length table.now }
    ensures { result ≡ numbered table.now fact }
{
    fact < 4096 && table[fact] != 65535
}

// The operator at a place: its value waits instead of its parts', and the last four keep a bit.
fn operate(code: usize, i: usize, kept: &mut [u8], waiting: u64) -> u64
    ensures { Turned (operated (room 32 kept.old) i code (values_in waiting kept.old))
        kept.old kept.new result }
{
    let first = waiting % 2 == 1;
    let second = waiting / 2 % 2 == 1;
    let value = value_of(code, first, second, facts::has(kept, BYTES, i));
    if 32771 < code {
        keep(kept, i, bit_of(code, first, value));
    }
    push(rest(code, waiting), value)
}

// The code at a place. The caller lends at least 4,096 entries.
fn step(code: usize, i: usize, table: &[u16], kept: &mut [u8], waiting: u64) -> u64
    requires { 4096 ≤ length table.now }
    ensures { Turned (stepped (numbered table.now) (room 32 kept.old) i code
        (values_in waiting kept.old)) kept.old kept.new result }
{
    if code < 32768 {
        return push(waiting, stands(code, table));
    }
    operate(code, i, kept, waiting)
}

// The formula's value in the state whose round numbers are in the table; what the next state has to know of this one is
// kept. The caller lends at least 4,096 entries.
pub fn advance(codes: &[u8], table: &[u16], kept: &mut [u8]) -> bool
    requires { 4096 ≤ length table.now }
    ensures { Advanced codes.now table.now kept.old kept.new result }
{
    let mut waiting = 0;
    // By place: `chunks_exact` has no clause for what it gives from the back.
    for i in (0..codes.len() / 2).rev() {
        waiting = step(records::word_at(codes, i * 2), i, table, kept, waiting);
    }
    waiting % 2 == 1
}
