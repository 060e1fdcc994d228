// Conditions of rules and attack states, judged in the round table and the used names of a state. The caller has judged
// the files.
ghost use Rattle.std.specs.Prelude.{◌≡◌, ℕ, map, ◌+◌, ◌/◌, ◌≤◌, ◌<◌, length, get_or};
ghost use Rattle.sets.specs.Sets.{◌∈◌};
ghost use Rattle.meaning.specs.Run.{Condition as Asked, met, conditions, unmet};
ghost use Rattle.meaning.specs.Run.Condition.{positive};
ghost use Rattle.records.specs.Words.{words};
ghost use Rattle.records.specs.Refusals.{refusal_number};
ghost use Rattle.closing.specs.Closing.{numbered};
ghost use Rattle.files.specs.Known.{Known};
ghost use Rattle.stepping.specs.Conditions.{stop_number, fact_in, kind_in, round_in};
ghost use Rattle.stepping.specs.Conditions.{condition_of, unmet_in, KnownIn, names_in};

use records::{Numbers, Refusal};

// A condition with its fact: of P, which must be in the closure, or of N, which must not; or a name, to be unused.
#[derive(Clone, Copy)]
pub enum Condition {
    Positive(usize),
    Negative(usize),
    Unused(usize),
}

// The conditions of a rule or an attack state: the lists P and N, and the names that it makes.
#[derive(Clone, Copy)]
pub struct Lists<'a> {
    pub p: &'a [u8],
    pub n: &'a [u8],
    pub names: &'a [u8],
}

impl<'a> Lists<'a> {
    // How many conditions they are.
    pub fn count(&self) -> usize
        ensures { result ≡ length self.now.p.now / 2 + length self.now.n.now / 2 + length self.now.names.now / 2 }
    {
        self.p.len() / 2 + self.n.len() / 2 + self.names.len() / 2
    }

    // Condition i of them: P in its order, then N in its order, then the names.
    pub fn nth(&self, i: usize) -> Condition
        requires { i < length self.now.p.now / 2 + length self.now.n.now / 2 + length self.now.names.now / 2 }
        ensures { condition_of result
            ≡ get_or (conditions (words self.now.p.now) (words self.now.n.now) (words self.now.names.now)) i
            (positive 0) }
    {
        let negative = self.p.len() / 2;
        let unused = negative + self.n.len() / 2;
        if i < negative {
            Condition::Positive(records::word_at(self.p, 2 * i))
        } else if i < unused {
            Condition::Negative(records::word_at(self.n, 2 * (i - negative)))
        } else {
            Condition::Unused(records::word_at(self.names, 2 * (i - unused)))
        }
    }

    // The first unmet one of them.
    #[tactic(auto, unfolding(crate::specs::Conditions::condition_of, crate::specs::Conditions::KnownIn))]
    pub fn first_unmet(&self, table: &[u16], used: &[u8]) -> Option<Condition>
        requires { Known self.now.p.now × Known self.now.n.now × (4096 ≤ length table.now) }
        ensures { unmet_in result ≡ unmet (numbered table.now) (names_in used.now)
            (conditions (words self.now.p.now) (words self.now.n.now) (words self.now.names.now)) }
    {
        first_of(Condition::Positive, self.p, table, used)
            .or_else(|| first_of(Condition::Negative, self.n, table, used))
            .or_else(|| first_of(Condition::Unused, self.names, table, used))
    }
}

// Whether a condition is met: a fact is in the closure where the table has a number for it.
#[tactic(auto, unfolding(crate::specs::Conditions::condition_of, crate::specs::Conditions::KnownIn))]
pub fn meets(table: &[u16], used: &[u8], c: Condition) -> bool
    requires { KnownIn (condition_of c) × (4096 ≤ length table.now) }
    ensures { result ≡ met (numbered table.now) (names_in used.now) (condition_of c) }
{
    match c {
        Condition::Positive(f) => table[f] != 65535,
        Condition::Negative(f) => table[f] == 65535,
        Condition::Unused(name) => !facts::has(used, 128, name),
    }
}

// The first unmet condition of one list, where `asked` says which condition each of its numbers is.
pub fn first_of<F: Fn(usize) -> Condition>(
    asked: F,
    list: &[u8],
    table: &[u16],
    used: &[u8],
) -> Option<Condition>
    requires { F.IsAlwaysCallable asked × ((f : ℕ) (c : _) → f ∈ words list.now → F.post asked f c
        → KnownIn (condition_of c)) × (4096 ≤ length table.now) }
    ensures { (k : ℕ → Asked) → ((f : ℕ) (c : _) → f ∈ words list.now → F.post asked f c → condition_of c ≡ k f)
        → unmet_in result ≡ unmet (numbered table.now) (names_in used.now) (map k (words list.now)) }
{
    for f in Numbers(list) {
        let c = asked(f);
        if !meets(table, used, c) {
            return Some(c);
        }
    }
    None
}

// Why a step can't fire for a condition: it is blocked, or a name is used.
#[tactic(auto, unfolding(crate::specs::Conditions::condition_of, crate::specs::Conditions::stop_number))]
pub fn refusal_of(c: Condition) -> Refusal
    ensures { refusal_number result ≡ stop_number (condition_of c) }
{
    match c {
        Condition::Positive(_) | Condition::Negative(_) => Refusal::Blocked,
        Condition::Unused(_) => Refusal::Used,
    }
}

// A condition's fact, or its name.
#[tactic(auto, unfolding(crate::specs::Conditions::condition_of, crate::specs::Conditions::fact_in))]
pub fn fact_of(c: Condition) -> usize
    ensures { result ≡ fact_in (condition_of c) }
{
    match c {
        Condition::Positive(n) | Condition::Negative(n) | Condition::Unused(n) => n,
    }
}

// Its kind: 1 positive, 2 negative; that of a name has none. These numbers stay, since C is handed them.
#[tactic(auto, unfolding(crate::specs::Conditions::condition_of, crate::specs::Conditions::kind_in))]
pub fn kind_of(c: Condition) -> u8
    ensures { result ≡ kind_in (condition_of c) }
{
    match c {
        Condition::Positive(_) => 1,
        Condition::Negative(_) => 2,
        Condition::Unused(_) => 0,
    }
}

// The round in which a negative condition's fact arose; the others have none: 65,535, as C is handed it, so it stays.
#[tactic(auto, unfolding(crate::specs::Conditions::condition_of, crate::specs::Conditions::round_in))]
pub fn round_of(c: Condition, table: &[u16]) -> usize
    requires { KnownIn (condition_of c) × (4096 ≤ length table.now) }
    ensures { result ≡ round_in (λ f. get_or table.now f 0) (condition_of c) }
{
    match c {
        Condition::Positive(_) => 65535,
        Condition::Negative(f) => table[f] as usize,
        Condition::Unused(_) => 65535,
    }
}
