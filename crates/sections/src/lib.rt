// One section of a file: its length, and the answer for its bytes by the section's role. head: a file's size and
// version.

#![tactic(auto)]

ghost use Rattle.std.specs.Prelude.{◌≡◌, true, false, ◌+◌, ◌≤◌, ◌<◌, length, drop, get_or, MatchOption};
ghost use Rattle.records.specs.Refusals.{refused_by, fault_of, told, answer_or};
ghost use Rattle.sections.specs.Sections.{long, end_at, fits, payload, in_section, rest_fault_lem, moved, all_of};
ghost use Rattle.sections.specs.Sections.{sizes, rule_kind_lem, reader, entries};

pub mod head;

use records::{Fault, Kind, Refusal};

// The sections that a model has, by what is in them.
#[derive(Clone, Copy, PartialEq, Eq)]
pub enum Role {
    Sizes,
    Initial,
    Persistent,
    Names,
    Clauses,
    Rules,
    Goals,
    Formulas,
}

// A section that is fine: where it ends, and how many records it has.
#[derive(Clone, Copy)]
pub struct Passed {
    pub end: usize,
    pub count: usize,
}

// The 4-byte number at a place. The caller has seen that the bytes are there.
fn long_at(file: &[u8], at: usize) -> usize
    requires { at + 4 ≤ length file.now }
    ensures { result ≡ long (drop at file.now) }
{
    let high = records::word_at(file, at);
    let low = records::word_at(file, at + 2);
    high * 65536 + low
}

// Where the section whose length stands at a place ends, where that length is there and fits.
pub fn section_end(file: &[u8], at: usize) -> Option<usize>
    ensures { MatchOption result (fits file.now at ≡ false)
        (λ end. (fits file.now at ≡ true) × (end ≡ end_at file.now at)) }
{
    if file.len() < at || file.len() - at < 4 {
        return None;
    }
    let start = at + 4;
    let size = long_at(file, at);
    if file.len() - start < size {
        return None;
    }
    Some(start + size)
}

// The fault of a file from a place on to its end.
pub fn rest_fault(file: &[u8], at: usize) -> Fault
    ensures { fault_of result ≡ rest_fault_lem file.now at }
{
    Fault {
        refusal: Refusal::Shape,
        start: at,
        size: file.len().saturating_sub(at),
    }
}

// A fault found in a part of the file from `by` on, at its place in the file. The caller has seen that the place is in
// a file.
fn move_fault(fault: Fault, by: usize) -> Fault
    requires { by + fault.start < 18446744073709551616 }
    ensures { fault_of result ≡ moved by (fault_of fault) }
{
    Fault {
        start: by + fault.start,
        ..fault
    }
}

// The answer for bytes that are judged as one record: what refuses it is for all of them, and it has no records.
fn whole(judged: Result<(), Refusal>, bytes: &[u8]) -> Result<usize, Fault>
    ensures { told result ≡ answer_or (all_of (refused_by judged) bytes.now) 0 }
{
    match judged {
        Ok(()) => Ok(0),
        Err(refusal) => Err(Fault {
            refusal,
            start: 0,
            size: bytes.len(),
        }),
    }
}

// Judges the sizes.
fn check_sizes(bytes: &[u8]) -> Result<(), Refusal>
    ensures { refused_by result ≡ sizes bytes.now }
{
    if bytes.len() != 2 {
        return Err(Refusal::Shape);
    }
    if 4096 < records::word_at(bytes, 0) {
        return Err(Refusal::Count);
    }
    Ok(())
}

// What the rules of a version are.
pub fn rule_kind(version: u8) -> Kind
    ensures { result ≡ rule_kind_lem version }
{
    if version < 3 { Kind::Rule } else { Kind::Maker }
}

// The answer for a section's bytes, in a model of a version and of so many facts.
fn read(bytes: &[u8], version: u8, role: Role, facts: usize) -> Result<usize, Fault>
    ensures { told result ≡ answer_or (reader version role facts bytes.now) (entries role bytes.now) }
{
    match role {
        Role::Sizes => whole(check_sizes(bytes), bytes),
        Role::Initial => whole(records::check_numbers(bytes, false, facts), bytes),
        Role::Persistent => whole(records::check_numbers(bytes, false, facts), bytes),
        Role::Names => whole(records::check_numbers(bytes, true, 1024), bytes),
        Role::Clauses => records::first_fault(bytes, Kind::Clause, facts),
        Role::Rules => records::first_fault(bytes, rule_kind(version), facts),
        Role::Goals => records::first_fault(bytes, Kind::Goal, facts),
        Role::Formulas => records::first_fault(bytes, Kind::Formula, facts),
    }
}

// The section whose length stands at a place, in a model of so many facts.
pub fn judge_section(file: &[u8], at: usize, role: Role, facts: usize) -> Result<Passed, Fault>
    ensures { let model = file.now in
        told result ≡ answer_or (in_section (reader (get_or model 0 0) role facts) model at)
        (record { end = end_at model at; count = entries role (payload model at) }) }
{
    let Some(end) = section_end(file, at) else {
        return Err(rest_fault(file, at));
    };
    let by = at + 4;
    match read(&file[by..end], head::version_of(file), role, facts) {
        Ok(count) => Ok(Passed { end, count }),
        Err(fault) => Err(move_fault(fault, by)),
    }
}
