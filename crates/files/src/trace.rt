// A trace's faults, in document 01's order.
ghost use Rattle.std.specs.Prelude.{◌≡◌, ◌*◌, ◌<◌, length};
ghost use Rattle.sets.specs.Sets.{first};
ghost use Rattle.records.specs.Words.{words};
ghost use Rattle.sections.specs.Sections.{end_at};
ghost use Rattle.files.specs.Files.{lacks, trace_fault, trace_of};
ghost use Rattle.files.specs.Answers.{entry_part_lem};
ghost use Rattle.records.specs.Refusals.{told, answer_or};

use super::Part;
use records::{Fault, Numbers, Refusal};
use sections::Passed;

// The trace's 4, 5 and 9, or how many steps it has, for a model with so many goals and rules.
pub fn judge_trace(trace: &[u8], goals: usize, rules: usize) -> Result<Passed, Fault>
    ensures { let file = trace.now in
        told result ≡ answer_or (trace_fault goals rules file)
        (record { end = end_at file 1; count = length (trace_of file).steps }) }
{
    let Some(end) = sections::section_end(trace, 1) else {
        return Err(sections::rest_fault(trace, 1));
    };
    let entries = &trace[5..end];
    let size = entries.len();
    if size < 2 || size % 2 == 1 {
        return Err(Fault {
            refusal: Refusal::Shape,
            start: 5,
            size,
        });
    }
    if end < trace.len() {
        return Err(sections::rest_fault(trace, end));
    }
    let steps = size / 2 - 1;
    if 1024 < steps {
        return Err(Fault {
            refusal: Refusal::Count,
            start: 5,
            size,
        });
    }
    let at = lacking(entries, goals, rules);
    if at < size {
        return Err(Fault {
            refusal: Refusal::Name,
            start: 5 + at,
            size: 2,
        });
    }
    Ok(Passed { end, count: steps })
}

// Where the first entry stands that names what the model lacks, the goal first and then the rules; the end
// where none does.
fn lacking(entries: &[u8], goals: usize, rules: usize) -> usize
    ensures { result
        ≡ 2 * first (lacks goals rules (words entries.now)) (length (words entries.now)) }
{
    let mut known = goals;
    let mut at = 0;
    for number in Numbers(entries) {
        if known <= number {
            return at;
        }
        known = rules;
        at += 2;
    }
    at
}

// The part of a trace that entry i is. The caller has seen that a trace can have the entry.
pub fn entry_part(trace: &[u8], i: usize) -> Part
    requires { i < 32768 }
    ensures { result ≡ entry_part_lem trace.now i }
{
    Part {
        mark: 1,
        start: 5 + 2 * i,
        size: 2,
    }
}
