// What judged files hold: a model's sections, each a part of the model that starts at its first payload byte, the
// records of its rules and attack states, and the trace's entries. The caller has judged the files.
ghost use Rattle.std.specs.Prelude.{◌≡◌, true, [], ◌<◌, length, get_or};
ghost use Rattle.std.proofs.Math.Option.{none};
ghost use Rattle.sets.specs.Sets.{◌∈◌};
ghost use Rattle.meaning.specs.Model.{aims};
ghost use Rattle.records.specs.Words.{words};
ghost use Rattle.records.specs.Records.{records};
ghost use Rattle.lists.specs.Lists.{Cut, ListBytes};
ghost use Rattle.sections.specs.Sections.{fits, section_at, rule_kind_lem};
ghost use Rattle.sections.specs.declared.Role.{Role};
ghost use Rattle.files.specs.Files.{place_of_role, section_of, entries_of, fact_count, rule_in, model_of_lem, shape_fault};
ghost use Rattle.files.specs.Known.{KnownNames, GoalCodes};
ghost use Rattle.files.specs.Answers.{record_part_lem, goal_part_lem};

use super::{Part, model};
use records::{Kind, Records};
use sections::{Role, head};

// The place of a section's length.
fn place_of(model: &[u8], role: Role) -> usize
    requires { shape_fault model.now ≡ none }
    ensures { result ≡ place_of_role model.now role }
{
    let mut at = 1;
    for &other in model::sections_of(head::version_of(model)) {
        if other == role {
            return at;
        }
        at = sections::section_end(model, at).unwrap();
    }
    at
}

// The bytes of the section of a role; none where the model's version has no such section.
pub fn section(model: &[u8], role: Role) -> &[u8]
    requires { shape_fault model.now ≡ none }
    ensures { result.now ≡ section_of model.now role }
{
    let at = place_of(model, role);
    match sections::section_end(model, at) {
        Some(end) => &model[at + 4..end],
        None => &model[..0],
    }
}

// F: the number in the sizes.
pub fn facts(model: &[u8]) -> usize
    requires { shape_fault model.now ≡ none }
    ensures { result ≡ fact_count model.now }
{
    records::word_at(section(model, Role::Sizes), 0)
}

// Record k of a section of records.
pub fn record(model: &[u8], role: Role, k: usize) -> &[u8]
    requires { (shape_fault model.now ≡ none) × (k < length (records (section_of model.now role))) }
    ensures { result.now ≡ get_or (records (section_of model.now role)) k [] }
{
    let bytes = section(model, role);
    records::record_at(bytes, records::place(bytes, k))
}

// The part of the model that record k of a section of records is.
fn record_part(model: &[u8], role: Role, k: usize) -> Part
    requires { (shape_fault model.now ≡ none) × (k < length (records (section_of model.now role))) }
    ensures { result ≡ record_part_lem model.now role k }
{
    let bytes = section(model, role);
    let at = records::place(bytes, k);
    let record = records::record_at(bytes, at);
    Part {
        mark: 0,
        start: place_of(model, role) + 4 + at,
        size: record.len(),
    }
}

// How many attack states the model has.
fn state_count(model: &[u8]) -> usize
    requires { shape_fault model.now ≡ none }
    ensures { result ≡ length (model_of_lem model.now).goals }
{
    Records(section(model, Role::Goals)).count()
}

// The part of the model that goal g's record is, an attack state's or a formula's.
pub fn goal_part(model: &[u8], g: usize) -> Part
    requires { (shape_fault model.now ≡ none) × (g < length (aims (model_of_lem model.now))) }
    ensures { result ≡ goal_part_lem model.now g }
{
    let states = state_count(model);
    if g < states {
        record_part(model, Role::Goals, g)
    } else {
        record_part(model, Role::Formulas, g - states)
    }
}

// The codes of goal g's formula; none where goal g is an attack state.
pub fn formula(model: &[u8], g: usize) -> &[u8]
    requires { (shape_fault model.now ≡ none) × (g < length (aims (model_of_lem model.now))) }
    ensures { GoalCodes model.now g result.now }
{
    let states = state_count(model);
    if g < states {
        return &model[..0];
    }
    let record = record(model, Role::Formulas, g - states);
    &record[2..]
}

// The names in use at the start.
pub fn names(model: &[u8]) -> &[u8]
    requires { shape_fault model.now ≡ none }
    ensures { (words result.now ≡ (model_of_lem model.now).names) × KnownNames result.now }
{
    section(model, Role::Names)
}

// The bytes of list j of a rule: P, N or A.
pub fn rule_list<'a>(model: &[u8], rule: &'a [u8], j: usize) -> &'a [u8]
    requires { Cut (rule_kind_lem (get_or model.now 0 0)) rule.now × (j < 3) }
    ensures { ListBytes (rule_kind_lem (get_or model.now 0 0)) rule.now j result.now }
{
    lists::list_of(rule, sections::rule_kind(head::version_of(model)), j)
}

// The names that a rule makes.
pub fn made<'a>(model: &[u8], rule: &'a [u8]) -> &'a [u8]
    requires { (shape_fault model.now ≡ none) × (rule.now ∈ records (section_of model.now Role.Rules)) }
    ensures { (words result.now ≡ (rule_in (get_or model.now 0 0) rule.now).names)
        × KnownNames result.now }
{
    if head::version_of(model) < 3 {
        return &rule[..0];
    }
    lists::list_of(rule, Kind::Maker, 3)
}

// The trace's entries: the bytes of its section.
pub fn entries(trace: &[u8]) -> &[u8]
    requires { fits trace.now (section_at trace.now 0) ≡ true }
    ensures { result.now ≡ entries_of trace.now }
{
    let end = sections::section_end(trace, 1).unwrap();
    &trace[5..end]
}
