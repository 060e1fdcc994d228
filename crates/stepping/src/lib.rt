// How a state changes, in its lent buffers: the initial facts and names, and a rule's P, A and names. The caller has
// judged the files.
// conditions: the test of conditions in a round table and used names.

#![tactic(auto)]

ghost use Rattle.std.specs.Prelude.{◌*◌, ◌≤◌, ◌≡◌, true, ◌||◌, ◌&&◌, not, length};
ghost use Rattle.sets.specs.Sets.{listed};
ghost use Rattle.facts.specs.Facts.{within, members};
ghost use Rattle.records.specs.Words.{words, ascending};
ghost use Rattle.files.specs.Known.{KnownBelow, Known, KnownNames};
ghost use Rattle.stepping.specs.Conditions.{names_in};
ghost use Rattle.stepping.specs.Stepping.{Holds};

use records::Numbers;

pub mod conditions;

// Adds every number of the bytes to the set in the first `width` bytes.
pub fn add_all(list: &[u8], set: &mut [u8], width: u32)
    requires { KnownBelow (8 * width) list.now × (width ≤ length set.old) }
    ensures { Holds width set.old set.new
        (λ g. within width set.old g || listed (words list.now) g) }
{
    for number in Numbers(list) {
        facts::add(set, width, number);
    }
}

// Removes every fact of the bytes from the state that isn't among the persistent ones.
pub fn remove_all(list: &[u8], persistent: &[u8], state: &mut [u8])
    requires { ascending (words persistent.now) ≡ true }
    ensures { Holds 512 state.old state.new (λ g. members state.old g
        && not (listed (words list.now) g && not (listed (words persistent.now) g))) }
{
    for fact in Numbers(list) {
        if !lists::has(persistent, fact) {
            facts::remove(state, 512, fact);
        }
    }
}

// Makes the numbers of the bytes, and no others, the set in the first `width` bytes.
pub fn fill(list: &[u8], set: &mut [u8], width: u32)
    requires { KnownBelow (8 * width) list.now × (width ≤ length set.old) }
    ensures { Holds width set.old set.new (listed (words list.now)) }
{
    facts::clear(set, width);
    add_all(list, set, width);
}

// The initial state: the facts of the first bytes and the names of the second, and no others.
pub fn begin(initial: &[u8], names: &[u8], state: &mut [u8], used: &mut [u8])
    requires { Known initial.now × KnownNames names.now × (512 ≤ length state.old)
        × (128 ≤ length used.old) }
    ensures facts { Holds 512 state.old state.new
        (listed (words initial.now)) }
    ensures names { Holds 128 used.old used.new
        (listed (words names.now)) }
{
    fill(initial, state, 512);
    fill(names, used, 128);
}

// The effect of a rule: the state without those of P that aren't persistent, together with A; the names that the rule
// makes are used from then on.
pub fn apply(p: &[u8], a: &[u8], persistent: &[u8], made: &[u8], state: &mut [u8], used: &mut [u8])
    requires { Known a.now × (ascending (words persistent.now) ≡ true) × KnownNames made.now
        × (512 ≤ length state.old) × (128 ≤ length used.old) }
    ensures facts { Holds 512 state.old state.new (λ g. members state.old g
        && not (listed (words p.now) g && not (listed (words persistent.now) g))
        || listed (words a.now) g) }
    ensures names { Holds 128 used.old used.new
        (λ n. names_in used.old n || listed (words made.now) n) }
{
    remove_all(p, persistent, state);
    add_all(a, state, 512);
    add_all(made, used, 128);
}
