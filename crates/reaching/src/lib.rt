// Where the steps of a judged pair lead: the search over the steps and their conditions for the first that is not met.
// The caller has judged the pair and lends buffers of enough room.

#![tactic(auto)]

ghost use Rattle.std.specs.Prelude.{◌≡◌, true, [], ◌≤◌, length};
ghost use Rattle.std.proofs.Math.Option.{none};
ghost use Rattle.meaning.specs.Model.{start};
ghost use Rattle.sections.specs.Sections.{fits, section_at};
ghost use Rattle.files.specs.Files.{pair_fault, model_of_lem, entries_of, trace_of};
ghost use Rattle.files.specs.Known.{GoalCodes};
ghost use Rattle.closing.specs.Closing.{Way};
ghost use Rattle.reaching.specs.Reaching.{Ready, lent_of, SameBuffers, state_in, aimed, Keeps, StepsTo};

use closing::Index;
use files::held;
use records::Numbers;
use sections::Role;
use stepping::conditions;
use stepping::conditions::{Condition, Lists};

// What is lent for a run: the state, its round numbers, and its used names. A function that reads one of them while it
// writes another takes each out first: through the struct that isn't covered yet.
#[derive(Drop)]
pub struct Buffers<'a, 'b, 'c> {
    pub state: &'a mut [u8],
    pub table: &'b mut [u16],
    pub names: &'c mut [u8],
}

// Where the steps led: how many fired, the rounds counted, and the condition that blocks the next step.
#[derive(Clone, Copy)]
pub struct Steps {
    pub fired: usize,
    pub rounds: usize,
    pub stop: Option<Condition>,
}

// The number of the trace's goal. The caller has judged the trace.
pub fn goal_of(trace: &[u8]) -> usize
    requires { (fits trace.now (section_at trace.now 0) ≡ true) × (2 ≤ length (entries_of trace.now)) }
    ensures { result ≡ (trace_of trace.now).goal }
{
    records::word_at(held::entries(trace), 0)
}

// Runs the steps from the initial state and stops at the first condition of a step's rule that is not met, P in its
// order, then N in its order, then the names that it makes. All of a rule's conditions are judged before the state is
// changed. Of each state that a step leaves, what the goal's formula has to know later is kept.
fn search(
    model: &[u8],
    trace: &[u8],
    codes: &[u8],
    lent: &mut Buffers,
    kept: &mut [u8],
    index: &Index,
) -> Steps
    requires { Ready model.now trace.now (lent_of lent.old)
        × (state_in (lent_of lent.old) ≡ start (model_of_lem model.now))
        × GoalCodes model.now (trace_of trace.now).goal codes.now
        × Keeps (aimed model.now trace.now) [] kept.old
        × Way model.now index.now.entries.now index.now.ends.now index.now.starts.now }
    ensures same_buffers { SameBuffers lent.old lent.new }
    ensures steps { StepsTo model.now trace.now (lent_of lent.old) (lent_of lent.new) kept.new result }
{
    let state = &mut *lent.state;
    let table = &mut *lent.table;
    let names = &mut *lent.names;
    let entries = held::entries(trace);
    let persistent = held::section(model, Role::Persistent);
    let mut fired = 0;
    let mut rounds = 0;
    let mut stop = None;
    'search: for k in Numbers(&entries[2..]) {
        rounds += closing::close_judged(model, state, table, *index);
        let rule = held::record(model, Role::Rules, k);
        let lists = Lists {
            p: held::rule_list(model, rule, 0),
            n: held::rule_list(model, rule, 1),
            names: held::made(model, rule),
        };
        // By number: `nth` goes over the three lists as one.
        for i in 0..lists.count() {
            let c = lists.nth(i);
            if !conditions::meets(table, names, c) {
                stop = Some(c);
                break 'search;
            }
        }
        past::advance(codes, table, kept);
        let a = held::rule_list(model, rule, 2);
        stepping::apply(lists.p, a, persistent, lists.names, state, names);
        fired += 1;
    }
    Steps {
        fired,
        rounds,
        stop,
    }
}

// The codes of the goal that the trace names, none where it is an attack state. The caller has judged the pair.
pub fn goal_codes<'a>(model: &'a [u8], trace: &[u8]) -> &'a [u8]
    requires { pair_fault model.now trace.now ≡ none }
    ensures { GoalCodes model.now (trace_of trace.now).goal result.now }
{
    held::formula(model, goal_of(trace))
}

// Runs a judged pair's steps, from the initial state, to the last state reached. That one is closed where a step is
// blocked in it, and not where all steps have fired. Each state is closed by the index where one is lent, else by
// sweeps.
// The index goes on by reference: three slices by value would take the check's stack over its limit.
pub fn reach(
    model: &[u8],
    trace: &[u8],
    codes: &[u8],
    lent: &mut Buffers,
    kept: &mut [u8],
    index: &Index,
) -> Steps
    requires { Ready model.now trace.now (lent_of lent.old)
        × GoalCodes model.now (trace_of trace.now).goal codes.now
        × Keeps (aimed model.now trace.now) [] kept.old
        × Way model.now index.now.entries.now index.now.ends.now index.now.starts.now }
    ensures same_buffers { SameBuffers lent.old lent.new }
    ensures steps { StepsTo model.now trace.now (lent_of lent.old) (lent_of lent.new) kept.new result }
{
    stepping::begin(
        held::section(model, Role::Initial),
        held::names(model),
        lent.state,
        lent.names,
    );
    search(model, trace, codes, lent, kept, index)
}
