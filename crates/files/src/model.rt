// A model's faults, in document 01's order.
ghost use Rattle.std.specs.Prelude.{◌≡◌, ◌+◌, ◌<◌, get_or};
ghost use Rattle.std.proofs.Math.Option.{none};
ghost use Rattle.sections.specs.Sections.{in_section, reader};
ghost use Rattle.sections.specs.declared.Role.{Role};
ghost use Rattle.records.specs.Refusals.{told, answer_or};
ghost use Rattle.files.specs.Files.{roles, tag, fact_count, shape_fault, model_fault};
ghost use Rattle.files.specs.Answers.{counts_of, noted};

use super::Counts;
use records::Fault;
use sections::{Role, head};

// The sections that a model of a version has, in order.
pub fn sections_of(version: u8) -> &'static [Role]
    ensures { result.now ≡ roles version }
{
    if version < 2 {
        &[
            Role::Sizes,
            Role::Initial,
            Role::Clauses,
            Role::Rules,
            Role::Goals,
        ]
    } else if version < 3 {
        &[
            Role::Sizes,
            Role::Initial,
            Role::Persistent,
            Role::Clauses,
            Role::Rules,
            Role::Goals,
        ]
    } else if version < 4 {
        &[
            Role::Sizes,
            Role::Initial,
            Role::Persistent,
            Role::Names,
            Role::Clauses,
            Role::Rules,
            Role::Goals,
        ]
    } else {
        &[
            Role::Sizes,
            Role::Initial,
            Role::Persistent,
            Role::Names,
            Role::Clauses,
            Role::Rules,
            Role::Goals,
            Role::Formulas,
        ]
    }
}

// A role's place in the order of the documents, over all versions.
#[tactic(auto, unfolding(crate::specs::Files::tag))]
pub fn tag_of(role: Role) -> usize
    ensures { result ≡ tag role }
{
    match role {
        Role::Sizes => 0,
        Role::Initial => 1,
        Role::Persistent => 2,
        Role::Names => 3,
        Role::Clauses => 4,
        Role::Rules => 5,
        Role::Goals => 6,
        Role::Formulas => 7,
    }
}

// The counts with those of one section more. The caller has seen that all of them are in a file.
fn note(mut counts: Counts, role: Role, count: usize) -> Counts
    requires { counts.goals + count < 18446744073709551616 }
    ensures { result ≡ noted counts role count }
{
    match role {
        Role::Clauses => counts.clauses = count,
        Role::Rules => counts.rules = count,
        Role::Goals => counts.goals = count,
        Role::Formulas => counts.goals += count,
        Role::Sizes | Role::Initial | Role::Persistent | Role::Names => {}
    }
    counts
}

// F as the sizes have it, where they are fine. Judging them asks for no F.
fn facts_told(model: &[u8]) -> usize
    ensures { let file = model.now in
        (in_section (reader (get_or file 0 0) Role.Sizes result) file 1 ≡ none → result ≡ fact_count file) }
{
    let Some(end) = sections::section_end(model, 1) else {
        return 0;
    };
    if end < 7 {
        return 0;
    }
    records::word_at(&model[5..end], 0)
}

// The model's first fault of 4 to 7, 12 or 17, or its counts.
pub fn judge_shape(model: &[u8]) -> Result<Counts, Fault>
    ensures { told result ≡ answer_or (shape_fault model.now) (counts_of model.now) }
{
    let version = head::version_of(model);
    let facts = facts_told(model);
    let mut counts = Counts {
        clauses: 0,
        rules: 0,
        goals: 0,
    };
    let mut at = 1;
    for &role in sections_of(version) {
        match sections::judge_section(model, at, role, facts) {
            Ok(passed) => {
                counts = note(counts, role, passed.count);
                at = passed.end;
            }
            Err(fault) => return Err(fault),
        }
    }
    if at < model.len() {
        return Err(sections::rest_fault(model, at));
    }
    Ok(counts)
}

// The model by itself: 2, 3, then 4 to 7, 12 or 17.
pub fn judge_model(model: &[u8]) -> Result<Counts, Fault>
    ensures { told result ≡ answer_or (model_fault model.now) (counts_of model.now) }
{
    if let Err(fault) = head::check_size(model, 65536) {
        return Err(fault);
    }
    if let Err(fault) = head::check_version(model, 4) {
        return Err(fault);
    }
    judge_shape(model)
}
