// Closing by a worklist: facts are taken in the order in which they arrive, and each of a fact's body places is crossed
// once, when the fact is taken. The index of body places is lent; what each clause still lacks and the facts that have
// arrived are kept here.

#![tactic(auto)]

ghost use Rattle.std.specs.Prelude.{◌≡◌, ℕ, ◌+◌, ◌≤◌, ◌<◌, cond, length, get_or, slice_range};
ghost use Rattle.records.specs.declared.Kind.{Kind};
ghost use Rattle.lists.specs.Lists.{AllCut};
ghost use Rattle.meaning.specs.Worklist.{cross, cross_all_lem};
ghost use Rattle.meaning.specs.Working.{clause_at};
ghost use Rattle.files.specs.Files.{clauses_in};
ghost use Rattle.worklist.specs.Working.{state_in, Begun, Short, Judged, Placed, Listed};
ghost use Rattle.worklist.specs.Working.{Workable, WorksFor};
ghost use Rattle.worklist.specs.Arrays.{held, latest_in, Does, Gathered, Lacking, Starts, Arrives};
ghost use Rattle.worklist.specs.Arrays.{Crossable, Amid, Between, number_in, waits_for};

// What closing comes to: the number of rounds, and how many body places were crossed.
#[derive(Clone, Copy)]
pub struct Worked {
    pub rounds: usize,
    pub crossings: usize,
}

// The index of body places, which is lent: the entries, a clause number for each place, by fact and then clause; where
// each fact's entries start, and the last one's end; and where each clause's record starts.
#[derive(Clone, Copy)]
pub struct Index<'a> {
    pub entries: &'a [u16],
    pub ends: &'a [u16],
    pub starts: &'a [u16],
}

impl<'a> Index<'a> {
    // A fact's entries.
    fn entries_of(self, f: usize) -> &'a [u16]
        requires { (f + 1 < length self.ends.now)
            × (get_or self.ends.now f 0 ≤ get_or self.ends.now (f + 1) 0)
            × (get_or self.ends.now (f + 1) 0 ≤ length self.entries.now) }
        ensures { result.now
            ≡ slice_range self.entry.entries.now (get_or self.entry.ends.now f 0)
            (get_or self.entry.ends.now (f + 1) 0) }
    {
        &self.entries[self.ends[f] as usize..self.ends[f + 1] as usize]
    }
}

// A section of clauses, and where each one's record starts.
#[derive(Clone, Copy)]
struct Section<'a> {
    bytes: &'a [u8],
    starts: &'a [u16],
}

impl Section<'_> {
    // The head of clause k, which stands after its record's length.
    fn head(self, k: usize) -> usize
        requires { AllCut Kind.Clause self.bytes.now × Placed self.bytes.now self.starts.now
            × (k < length self.starts.now) }
        ensures { result ≡ (clause_at (clauses_in self.entry.bytes.now) k).head }
    {
        records::word_at(self.bytes, self.starts[k] as usize + 2)
    }
}

// None's number in the table, which is what C callers are handed: so it stays a number.
const OUTSIDE: u16 = 65535;

// A fact's number in the table; only facts below 4,096 have one.
fn number(table: &[u16], f: usize) -> u16
    requires { 4096 ≤ length table.now }
    ensures { result ≡ number_in table.now f }
{
    if f < 4096 { table[f] } else { OUTSIDE }
}

// The facts that have arrived, in that order, and how many they are. The array is lent: beside one of its own the count
// stays in memory, and a closing in which many facts arrive at once takes a tenth longer.
#[derive(Drop)]
struct Queue<'a> {
    facts: &'a mut [u16; 4096],
    n: usize,
}

impl Queue<'_> {
    // The facts of the state wait, ascending.
    fn gather(&mut self, table: &[u16])
        requires { (4096 ≤ length table.now) × (length self.old.facts.now ≡ 4096) }
        ensures { Gathered (state_in table.now) self.new.n self.new.facts.now }
    {
        let mut n = 0;
        for (f, round) in table[..4096].iter().enumerate() {
            // Written where it is none, too: the next one takes the place.
            self.facts[n] = f as u16;
            if *round == 0 {
                n += 1;
            }
        }
        self.n = n;
    }

    // A fact arrives in round r, unless it has arrived before.
    fn arrive(&mut self, f: usize, r: u16, table: &mut [u16])
        requires { (f < 4096) × (4096 ≤ length table.old)
            × (get_or table.old f 0 ≡ 65535 → self.old.n < 4096) }
        ensures { Arrives f r table.old self.old.facts.now self.old.n table.new
            self.new.facts.now self.new.n }
    {
        if table[f] == OUTSIDE {
            table[f] = r;
            self.facts[self.n] = f as u16;
            self.n += 1;
        }
    }

    // The fact at a place of the queue, where one waits there that arose sooner than the one asked for, which has not
    // arrived as long as it has no number.
    fn next_before(&self, at: usize, table: &[u16], asked: usize) -> Option<usize>
        requires { (self.now.n ≤ 4096) × (length self.now.facts.now ≡ 4096) × (4096 ≤ length table.now)
            × ((i : ℕ) → i < self.now.n → get_or self.now.facts.now i 0 < 4096) }
        ensures { result
            ≡ cond (waits_for asked table.now self.now.facts.now self.now.n at)
            (Some (get_or self.now.facts.now at 0)) None }
    {
        let f = *self.facts[..self.n].get(at)? as usize;
        (table[f] < number(table, asked)).then_some(f)
    }

    // The round of the latest arrival, 0 where none arrived.
    fn latest(&self, table: &[u16]) -> usize
        requires { (self.now.n ≤ 4096) × (length self.now.facts.now ≡ 4096) × (4096 ≤ length table.now)
            × ((i : ℕ) → i < self.now.n → get_or self.now.facts.now i 0 < 4096) }
        ensures { result ≡ latest_in table.now self.now.facts.now self.now.n }
    {
        match self.facts[..self.n].last() {
            Some(f) => table[*f as usize] as usize,
            None => 0,
        }
    }
}

// What the worklist keeps: what each clause still lacks, and the facts that have arrived.
#[derive(Drop)]
struct Worklist<'a, 'b> {
    lacks: &'a mut [u8; 4096],
    queue: Queue<'b>,
}

impl Worklist<'_, '_> {
    // What each clause lacks at first, which is its body; answers a number that no clause lacks less than. A record is
    // its length, its head and its body's facts, 2 bytes each, and ends where the next one starts: but for the last
    // clause none is looked at, and one store serves many.
    fn bodies(&mut self, clauses: Section) -> u8
        requires { AllCut Kind.Clause clauses.bytes.now × Placed clauses.bytes.now clauses.starts.now
            × Short (clauses_in clauses.bytes.now) × (length clauses.starts.now ≤ 4096)
            × (length self.old.lacks.now ≡ 4096) × ((k : ℕ) → get_or self.old.lacks.now k 0 ≡ 0) }
        ensures { Lacking (clauses_in clauses.entry.bytes.now) result self.new.lacks.now
            × (self.new.queue.facts.now ≡ self.old.queue.facts.now)
            × (self.new.queue.n ≡ self.old.queue.n) }
    {
        let mut least: u8 = 255;
        for (k, w) in clauses.starts.windows(2).enumerate() {
            let body = ((w[1] - w[0] - 4) / 2) as u8;
            self.lacks[k] = body;
            least = least.min(body);
        }
        let Some(last) = clauses.starts.last() else {
            return least;
        };
        let body = ((records::word_at(clauses.bytes, *last as usize) - 2) / 2) as u8;
        self.lacks[clauses.starts.len() - 1] = body;
        least.min(body)
    }

    // The heads of clauses with an empty body arrive in round 1, once the facts of the state wait.
    fn unasked(&mut self, clauses: Section, table: &mut [u16])
        requires { Judged clauses.bytes.now (state_in table.old)
            × Placed clauses.bytes.now clauses.starts.now
            × Lacking (clauses_in clauses.bytes.now) 0 self.old.lacks.now
            × Begun table.old × Gathered (state_in table.old) self.old.queue.n self.old.queue.facts.now }
        ensures { Starts (clauses_in clauses.entry.bytes.now) (state_in table.old) table.old
            (held self.new table.new) }
    {
        let queue = &mut self.queue;
        for (k, left) in self.lacks[..clauses.starts.len()].iter().enumerate() {
            if *left == 0 {
                queue.arrive(clauses.head(k), 1, table);
            }
        }
    }

    // How the worklist begins, once the facts of the state wait: what each clause lacks, and the heads of clauses with
    // an empty body, which are looked for only where there are any.
    fn start(&mut self, clauses: Section, table: &mut [u16])
        requires { Judged clauses.bytes.now (state_in table.old)
            × Placed clauses.bytes.now clauses.starts.now
            × (length self.old.lacks.now ≡ 4096) × ((k : ℕ) → get_or self.old.lacks.now k 0 ≡ 0)
            × Begun table.old × Gathered (state_in table.old) self.old.queue.n self.old.queue.facts.now }
        ensures { Starts (clauses_in clauses.entry.bytes.now) (state_in table.old) table.old
            (held self.new table.new) }
    {
        if self.bodies(clauses) == 0 {
            self.unasked(clauses, table);
        }
    }

    // A body place of clause k is crossed, in the round before r: where it was the last one, the clause's head arrives.
    fn cross(&mut self, clauses: Section, k: usize, r: u16, table: &mut [u16])
        requires { AllCut Kind.Clause clauses.bytes.now × Placed clauses.bytes.now clauses.starts.now
            × Crossable (clauses_in clauses.bytes.now) k (held self.old table.old) }
        ensures { Does (cross (clauses_in clauses.entry.bytes.now) r k)
            (held self.old table.old) (held self.new table.new) }
    {
        let left = self.lacks[k] - 1;
        self.lacks[k] = left;
        if left == 0 {
            self.queue.arrive(clauses.head(k), r, table);
        }
    }

    // The places of a fact are crossed, by its entries of the index, in the round before r.
    fn cross_all(&mut self, clauses: Section, entries: &[u16], r: u16, table: &mut [u16])
        requires { AllCut Kind.Clause clauses.bytes.now × Placed clauses.bytes.now clauses.starts.now
            × Amid (clauses_in clauses.bytes.now) r entries.now (held self.old table.old) }
        ensures { Does (cross_all_lem (clauses_in clauses.entry.bytes.now) r entries.now)
            (held self.old table.old) (held self.new table.new) }
    {
        for k in entries {
            self.cross(clauses, *k as usize, r, table);
        }
    }

    // Facts are taken, in the order in which they arrived, until none waits that arose sooner than the one asked for:
    // then its round is finished.
    fn drain(&mut self, clauses: Section, table: &mut [u16], index: Index, asked: usize) -> Worked
        requires { Judged clauses.bytes.now (state_in table.old)
            × Listed (clauses_in clauses.bytes.now) index.entries.now index.ends.now
            × Placed clauses.bytes.now clauses.starts.now
            × Between (clauses_in clauses.bytes.now) (state_in table.old) asked 0 0
            (held self.old table.old) }
        ensures { WorksFor (clauses_in clauses.entry.bytes.now) (state_in table.old) asked
            table.old table.new result }
    {
        let mut at = 0;
        let mut crossings = 0;
        while let Some(f) = self.queue.next_before(at, table, asked) {
            let entries = index.entries_of(f);
            let r = table[f] + 1;
            self.cross_all(clauses, entries, r, table);
            crossings += entries.len();
            at += 1;
        }
        Worked {
            rounds: self.queue.latest(table),
            crossings,
        }
    }
}

// Works by the index, under judged clauses, up to the round in which the fact asked for arrives: the table, of at least
// 4,096 entries, holds round 0, and afterwards the round number of every fact that has arrived. For a number of 4,096
// or more, which is no fact, that is all rounds. The caller has built the index; there is a start for each clause.
pub fn run(clauses: &[u8], table: &mut [u16], index: Index, asked: usize) -> Worked
    requires { Workable clauses.now table.old index.entries.now index.ends.now index.starts.now }
    ensures { WorksFor (clauses_in clauses.now) (state_in table.old) asked
        table.old table.new result }
{
    // The heads of clauses with an empty body are not shown beside a stored fact.
    if number(table, asked) == 0 {
        return Worked {
            rounds: 0,
            crossings: 0,
        };
    }
    let clauses = Section {
        bytes: clauses,
        starts: index.starts,
    };
    let mut lacks = [0u8; 4096];
    let mut facts = [0u16; 4096];
    let mut work = Worklist {
        lacks: &mut lacks,
        queue: Queue {
            facts: &mut facts,
            n: 0,
        },
    };
    work.queue.gather(table);
    work.start(clauses, table);
    work.drain(clauses, table, index, asked)
}
