// A pair of files: the first fault of both in document 01's order, stage by stage, and the bytes at fault.
ghost use Rattle.std.specs.Prelude.{◌≡◌, take, drop};
ghost use Rattle.std.proofs.Math.Option.{map};
ghost use Rattle.records.specs.Refusals.{answer_or, fault_of};
ghost use Rattle.files.specs.Files.{heads_fault, files_fault, steps_fault, pair_fault};
ghost use Rattle.files.specs.Answers.{counts_of, blamed_as, refused_as, blame_in, blamed, part_of};

use super::{Counts, Part, Refused, model, trace};
use records::Fault;
use sections::head;

// A fault of the file marked.
fn blame(mark: u8, fault: Fault) -> Refused
    ensures { let f = fault_of fault in
        refused_as result ≡ (f.number, record { mark = mark; start = f.start; size = f.size }) }
{
    Refused {
        refusal: fault.refusal,
        part: Part {
            mark,
            start: fault.start,
            size: fault.size,
        },
    }
}

// The first stage: 2 of both files, then 3 of both.
pub fn judge_heads(model: &[u8], trace: &[u8]) -> Result<(), Refused>
    ensures { blame_in result ≡ map blamed_as (heads_fault model.now trace.now) }
{
    if let Err(fault) = head::check_size(model, 65536) {
        return Err(blame(0, fault));
    }
    if let Err(fault) = head::check_size(trace, 4096) {
        return Err(blame(1, fault));
    }
    if let Err(fault) = head::check_version(model, 4) {
        return Err(blame(0, fault));
    }
    if let Err(fault) = head::check_version(trace, 1) {
        return Err(blame(1, fault));
    }
    Ok(())
}

// The first two stages: sizes and versions, then the model's 4 to 7. What a tool refuses for the model's sake comes
// after these.
pub fn judge_files(model: &[u8], trace: &[u8]) -> Result<Counts, Refused>
    ensures { blamed result ≡ answer_or (map blamed_as (files_fault model.now trace.now)) (counts_of model.now) }
{
    if let Err(refused) = judge_heads(model, trace) {
        return Err(refused);
    }
    match model::judge_shape(model) {
        Ok(counts) => Ok(counts),
        Err(fault) => Err(blame(0, fault)),
    }
}

// The last stage before the run, for a model of so many goals and rules: the trace's 4, 5 and 9.
pub fn judge_steps(trace: &[u8], counts: Counts) -> Result<Counts, Refused>
    ensures { blamed result ≡ answer_or (map blamed_as (steps_fault counts.goals counts.rules trace.now)) counts }
{
    match trace::judge_trace(trace, counts.goals, counts.rules) {
        Ok(_) => Ok(counts),
        Err(fault) => Err(blame(1, fault)),
    }
}

// The pair: what comes before the trace's own numbers, then those.
pub fn judge_pair(model: &[u8], trace: &[u8]) -> Result<Counts, Refused>
    ensures { blamed result ≡ answer_or (map blamed_as (pair_fault model.now trace.now)) (counts_of model.now) }
{
    match judge_files(model, trace) {
        Ok(counts) => judge_steps(trace, counts),
        Err(refused) => Err(refused),
    }
}

// The bytes of a part of the file marked, as far as the file has them: for every mark and place.
pub fn part<'a>(model: &'a [u8], trace: &'a [u8], at: Part) -> &'a [u8]
    ensures { result.now ≡ part_of model.now trace.now at }
{
    let mark = at.mark;
    if mark == 0 {
        cut(model, at.start, at.size)
    } else if mark == 1 {
        cut(trace, at.start, at.size)
    } else {
        &model[..0]
    }
}

// The bytes at a place, as far as they go.
fn cut(file: &[u8], start: usize, size: usize) -> &[u8]
    ensures { result.now ≡ take size (drop start file.now) }
{
    if file.len() < start {
        return &file[file.len()..];
    }
    let rest = &file[start..];
    if size < rest.len() {
        &rest[..size]
    } else {
        rest
    }
}
