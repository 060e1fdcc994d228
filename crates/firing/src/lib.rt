// Every rule that can fire in the last state reached, in a lent list: what could have been done instead of a step that
// is blocked. The state is the one that the check leaves; a rule is judged by the check's own test of conditions.

#![tactic(auto)]

ghost use Rattle.std.specs.Prelude.{◌≤◌, ◌≡◌, length, get_or};
ghost use Rattle.std.proofs.Math.Option.{none};
ghost use Rattle.sets.specs.Sets.{◌∈◌};
ghost use Rattle.records.specs.Records.{records};
ghost use Rattle.records.specs.Refusals.{numbered as by_number};
ghost use Rattle.sections.specs.declared.Role.{Role};
ghost use Rattle.files.specs.Files.{section_of, rule_in, model_of_lem, shape_fault};
ghost use Rattle.closing.specs.Closing.{numbered};
ghost use Rattle.stepping.specs.Conditions.{names_in};
ghost use Rattle.checking.specs.Passing.{Passed};
ghost use Rattle.firing.specs.Firing.{fires_by, numbers_of, Numbered, FiresIn};

use files::{Counts, both, held};
use records::Refusal;
use sections::Role;
use stepping::conditions;
use stepping::conditions::Condition;

// Whether the rule that a record is fires, by the round numbers and the used names of a state. A list is cut only where
// those before it are met.
fn fires(model: &[u8], rule: &[u8], table: &[u16], names: &[u8]) -> bool
    requires { (shape_fault model.now ≡ none) × (rule.now ∈ records (section_of model.now Role.Rules))
        × (4096 ≤ length table.now) }
    ensures { result ≡ fires_by (numbered table.now) (names_in names.now)
        (rule_in (get_or model.now 0 0) rule.now) }
{
    let p = held::rule_list(model, rule, 0);
    if conditions::first_of(Condition::Positive, p, table, names).is_some() {
        return false;
    }
    let n = held::rule_list(model, rule, 1);
    if conditions::first_of(Condition::Negative, n, table, names).is_some() {
        return false;
    }
    let made = held::made(model, rule);
    conditions::first_of(Condition::Unused, made, table, names).is_none()
}

// Writes the numbers of all rules that fire, by the round numbers and the used names of a state, to the front of the
// list, which has an entry for each rule; answers how many they are.
fn list_rules(model: &[u8], table: &[u16], names: &[u8], list: &mut [u16]) -> usize
    requires { (shape_fault model.now ≡ none) × (4096 ≤ length table.now)
        × (length (model_of_lem model.now).rules ≤ length list.old) }
    ensures { Numbered (numbers_of (fires_by (numbered table.now) (names_in names.now)) 0
        (model_of_lem model.now).rules) list.old list.new result }
{
    let rules = held::section(model, Role::Rules);
    let mut at = 0;
    let mut k: u16 = 0;
    let mut n = 0;
    while at < rules.len() {
        let rule = records::record_at(rules, at);
        // From its first bytes: the part's length comes of tests, for which the next place would wait. So it does in a
        // `for` over `Records`, with which 2,048 rules take almost half as long again.
        let size = 2 + records::word_at(rule, 0);
        if fires(model, rule, table, names) {
            list[n] = k;
            n += 1;
        }
        at += size;
        k += 1;
    }
    n
}

// The rules of a pair whose files have passed, but for the trace's own numbers, for a model of so many clauses, rules
// and goals: room for the list and the index, then the trace, then the run, then the rules.
fn rules_built(
    model: &[u8],
    trace: &[u8],
    counts: Counts,
    state: &mut [u8],
    table: &mut [u16],
    names: &mut [u8],
    index: &mut [u16],
    list: &mut [u16],
) -> Result<usize, Refusal>
    requires { Passed model.now trace.now (record { state = state.now; table = table.old; names = names.old })
        counts }
    ensures { FiresIn model.now trace.now
        (record { state = state.entry.now; table = table.old; names = names.old })
        (record { state = state.exit.now; table = table.new; names = names.new })
        index.old index.new list.old list.new (by_number result) }
{
    let short = closing::no_places(model, counts.clauses, index);
    if (list.len() < counts.rules) | short {
        return Err(Refusal::Room);
    }
    both::judge_steps(trace, counts)?;
    running::run_indexed(model, trace, state, table, names, index);
    Ok(list_rules(model, table, names, list))
}

// The count and, in the list, the numbers of all rules that fire in the last state reached, ascending; or a
// refusal, with nothing changed. State, table and names are left as by the check.
pub fn rules(
    model: &[u8],
    trace: &[u8],
    state: &mut [u8],
    table: &mut [u16],
    names: &mut [u8],
    index: &mut [u16],
    list: &mut [u16],
) -> Result<usize, Refusal>
    ensures { FiresIn model.now trace.now
        (record { state = state.entry.now; table = table.old; names = names.old })
        (record { state = state.exit.now; table = table.new; names = names.new })
        index.old index.new list.old list.new (by_number result) }
{
    if checking::no_space(state, table, names) {
        return Err(Refusal::Room);
    }
    let counts = both::judge_files(model, trace)?;
    rules_built(model, trace, counts, state, table, names, index, list)
}
