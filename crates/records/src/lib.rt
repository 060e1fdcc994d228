// Reads records out of a lent section: where each starts, what is wrong with it, and the lists in it.

#![tactic(auto)]

ghost use Rattle.std.specs.Prelude.{◌≡◌, ◌+◌, ◌*◌, ◌<◌, ◌≤◌, Bool, true, false, not, ◌&&◌, List, ◌∷◌, leb, ltb, length, take, drop};
ghost use Rattle.std.specs.Prelude.{ℕ, MatchOption};
ghost use Rattle.std.specs.Iterator.{YieldsFirst, YieldsFirstBy, item_count};
ghost use Rattle.std.specs.List.{list_any};
ghost use Rattle.sets.specs.Sets.{any};
ghost use Rattle.records.specs.Words.{word, words, ascending};
ghost use Rattle.records.specs.Codes.{over_two_lem, is_formula_lem};
ghost use Rattle.records.specs.Records.{record_of_lem, records, place_of, rows, list_count_lem, cut_lists, cut_clause};
ghost use Rattle.records.specs.Records.{whole, bare, judge, first_fault_lem, fact_row};
ghost use Rattle.records.specs.Above.{bits, bits_of, ended, after};
ghost use Rattle.records.specs.Refusals.{refusal_number, refused_by, told, answer_or};
ghost use Rattle.records.specs.Marking.{marked, marked_by, picked, picked_of, before, judge_codes};

// The kinds of records. A maker is a rule with a fourth list, the names it makes.
#[derive(Clone, Copy)]
pub enum Kind {
    Clause,
    Rule,
    Maker,
    Goal,
    Formula,
}

// Why files are refused and why a run stops, by the names of document 01's table, each with its number there, and those
// of document 02.
#[derive(Clone, Copy, PartialEq, Eq)]
pub enum Refusal {
    Room = 1,
    Long = 2,
    Version = 3,
    Shape = 4,
    Count = 5,
    Fact = 6,
    Order = 7,
    Name = 9,
    Blocked = 10,
    NoAttack = 11,
    BadName = 12,
    Used = 13,
    Formula = 17,
}

impl Refusal {
    // Its number in the table.
    pub fn number(self) -> u8
        ensures { result ≡ refusal_number self }
    {
        self as u8
    }
}

// A fault: why, and the bytes at fault by their place and length.
#[derive(Clone, Copy)]
pub struct Fault {
    pub refusal: Refusal,
    pub start: usize,
    pub size: usize,
}

// A fault's refusal, where no bytes are handed back.
impl From<Fault> for Refusal {
    ghost from_gives = { λ f r. r ≡ f.refusal };

    fn from(fault: Fault) -> Refusal {
        fault.refusal
    }
}

// What a list is allowed: so many numbers, each below the limit; they are names or facts.
#[derive(Clone, Copy)]
pub struct Row {
    pub longest: usize,
    pub limit: usize,
    pub names: bool,
}

// Which faults a record's lists have shown so far.
#[derive(Clone, Copy)]
struct Marks {
    count: bool,
    fact: bool,
    name: bool,
    order: bool,
}

// What looking along a list shows.
#[derive(Clone, Copy)]
struct Seen {
    large: bool,
    broken: bool,
}

// The numbers that bytes are, two by two; an odd byte at the end is none.
#[derive(Clone, Copy)]
pub struct Numbers<'a>(pub &'a [u8]);

impl<'a> Iterator for Numbers<'a> {
    type Item = usize;

    ghost next_gives = { YieldsFirst (λ s. words s.0.now) };

    ghost remaining = { item_count (λ s. words s.0.now) };

    fn next(&mut self) -> Option<usize> {
        let (number, rest) = self.0.split_first_chunk::<2>()?;
        self.0 = rest;
        Some(word_at(number, 0))
    }
}

// The records of a section, in order.
#[derive(Clone, Copy)]
pub struct Records<'a>(pub &'a [u8]);

impl<'a> Iterator for Records<'a> {
    type Item = &'a [u8];

    ghost next_gives = { YieldsFirstBy (λ r. r.now) (λ s. records s.0.now) };

    ghost remaining = { item_count (λ s. records s.0.now) };

    fn next(&mut self) -> Option<&'a [u8]> {
        if self.0.is_empty() {
            return None;
        }
        let record = record_at(self.0, 0);
        let (_, rest) = self.0.split_at(record.len());
        self.0 = rest;
        Some(record)
    }
}

fn wide(x: u8) -> usize
    ensures { result ≡ x }
{
    x as usize
}

// The 2-byte number at a place. The caller has seen that both bytes are there.
pub fn word_at(bytes: &[u8], at: usize) -> usize
    requires { at + 2 ≤ length bytes.now }
    ensures { result ≡ word (drop at bytes.now) }
{
    let high = wide(bytes[at]);
    let low = wide(bytes[at + 1]);
    high * 256 + low
}

// The record at a place of the section, with its length; the rest of the section where that length doesn't fit.
pub fn record_at(section: &[u8], at: usize) -> &[u8]
    ensures { result.now ≡ record_of_lem (drop at section.now) }
{
    if section.len() <= at {
        return &section[section.len()..];
    }
    let rest = &section[at..];
    if rest.len() < 2 {
        return rest;
    }
    let size = word_at(rest, 0);
    if size <= rest.len() - 2 {
        &rest[0..size + 2]
    } else {
        rest
    }
}

// How many lists with a count a record of the kind has: a clause's have none, and a formula has no lists.
fn list_count(kind: Kind) -> usize
    ensures { result ≡ list_count_lem kind }
{
    match kind {
        Kind::Clause => 0,
        Kind::Rule => 3,
        Kind::Maker => 4,
        Kind::Goal => 2,
        Kind::Formula => 0,
    }
}

// What list j of a record is allowed. The caller knows that records of the kind have it; a formula has none.
fn row_of(kind: Kind, j: usize, facts: usize) -> Row
    requires { j < length (rows kind facts) }
    ensures { drop j (rows kind facts) ≡ result ∷ drop (j + 1) (rows kind facts) }
{
    if 3 <= j {
        return Row {
            longest: 32,
            limit: 1024,
            names: true,
        };
    }
    let longest = match kind {
        Kind::Clause => if j == 0 { 1 } else { 16 },
        Kind::Rule => 32,
        Kind::Maker => 32,
        Kind::Goal => 32,
        Kind::Formula => 32,
    };
    Row {
        longest,
        limit: facts,
        names: false,
    }
}

// Whether a number of the list is the limit or more, and below an end.
fn reaches(list: &[u8], limit: usize, end: usize) -> bool
    ensures { result ≡ list_any (λ x. leb limit x && ltb x end) (words list.now) }
{
    Numbers(list).any(|x| limit <= x && x < end)
}

// The marks with those of one more list, of names or of facts.
fn mark(marks: Marks, names: bool, long: bool, large: bool, broken: bool) -> Marks
    ensures { result ≡ marked names marks long large broken }
{
    Marks {
        count: marks.count | long,
        fact: marks.fact | (!names & large),
        name: marks.name | (names & large),
        order: marks.order | broken,
    }
}

// Whether a list has a number that is the limit or more, and whether it doesn't ascend. While the numbers ascend the
// last is the largest, so that it alone is held to the limit: with both tests for each number the lists of rules take
// three quarters longer.
fn look(list: &[u8], limit: usize) -> Seen
    ensures { let numbers = words list.now in
        (result.large ≡ any (leb limit) numbers) × (result.broken ≡ not (ascending numbers)) }
{
    let mut numbers = Numbers(list);
    let Some(mut last) = numbers.next() else {
        return Seen {
            large: false,
            broken: false,
        };
    };
    for f in numbers {
        if f <= last {
            return Seen {
                large: reaches(list, limit, 65536),
                broken: true,
            };
        }
        last = f;
    }
    Seen {
        large: limit <= last,
        broken: false,
    }
}

// The marks with those of the list that these bytes are.
fn mark_list(list: &[u8], row: Row, marks: Marks) -> Marks
    ensures { result ≡ marked_by row (words list.now) marks }
{
    let seen = look(list, row.limit);
    mark(
        marks,
        row.names,
        row.longest < list.len() / 2,
        seen.large,
        seen.broken,
    )
}

// Why a record with these marks is refused, if it is: the first reason that applies.
fn pick(marks: Marks) -> Result<(), Refusal>
    ensures { refused_by result ≡ picked marks }
{
    // Nearly every record is fine, which is then seen by one test.
    if marks.count | marks.fact | marks.name | marks.order {
        Err(if marks.count {
            Refusal::Count
        } else if marks.fact {
            Refusal::Fact
        } else if marks.name {
            Refusal::BadName
        } else {
            Refusal::Order
        })
    } else {
        Ok(())
    }
}

// Judges a section of bare numbers, names or facts, below a limit.
pub fn check_numbers(bytes: &[u8], names: bool, limit: usize) -> Result<(), Refusal>
    ensures { refused_by result ≡ bare names limit bytes.now }
{
    if bytes.len() % 2 == 1 {
        return Err(Refusal::Shape);
    }
    // The numbers have no bound of their own, so they may fill the bytes.
    let row = Row {
        longest: bytes.len(),
        limit,
        names,
    };
    let clear = Marks {
        count: false,
        fact: false,
        name: false,
        order: false,
    };
    pick(mark_list(bytes, row, clear))
}

// The numbers of the list that bytes start with, and what is behind it, where they have it whole.
fn split_list(bytes: &[u8]) -> Option<(&[u8], &[u8])>
    ensures { let size = 2 * word bytes.now in
        MatchOption result (length bytes.now < 2 + size) (λ p. (2 + size ≤ length bytes.now)
        × (p.0.now ≡ take size (drop 2 bytes.now)) × (p.1.now ≡ drop (2 + size) bytes.now)) }
{
    let (count, rest) = bytes.split_first_chunk::<2>()?;
    let size = word_at(count, 0) * 2;
    if size <= rest.len() {
        Some(rest.split_at(size))
    } else {
        None
    }
}

// Judges the lists of a rule, a maker or an attack state, after some marks.
fn check_lists(body: &[u8], kind: Kind, facts: usize, marks: Marks) -> Result<(), Refusal>
    ensures { refused_by result ≡ picked_of (rows kind facts) marks (cut_lists (list_count_lem kind) body.now) }
{
    let mut marks = marks;
    let mut rest = body;
    for j in 0..list_count(kind) {
        let Some((list, behind)) = split_list(rest) else {
            return Err(Refusal::Shape);
        };
        marks = mark_list(list, row_of(kind, j, facts), marks);
        rest = behind;
    }
    if !rest.is_empty() {
        return Err(Refusal::Shape);
    }
    pick(marks)
}

// The marks with that of a clause's head, which is a list of one number. The caller has seen that it is there.
fn mark_head(body: &[u8], facts: usize, marks: Marks) -> Marks
    requires { 2 ≤ length body.now }
    ensures { result ≡ marked_by (fact_row 1 facts) (words (take 2 body.now)) marks }
{
    mark(marks, false, false, facts <= word_at(body, 0), false)
}

// Judges a clause's head and body, after some marks.
fn check_clause(body: &[u8], facts: usize, marks: Marks) -> Result<(), Refusal>
    ensures { refused_by result ≡ picked_of (rows Kind.Clause facts) marks (cut_clause body.now) }
{
    if body.len() < 2 || body.len() % 2 == 1 {
        return Err(Refusal::Shape);
    }
    // A loop over the one number of the head would take a sixth of the time for short clauses.
    let marks = mark_head(body, facts, marks);
    let marks = mark_list(&body[2..], row_of(Kind::Clause, 1, facts), marks);
    pick(marks)
}

// What is above a place of a formula is one number, so that no stack is needed: under a leading 1 a bit for each
// operator, the nearest last, 1 where its second formula is still to come; 0 where the whole formula has ended.

// What is above where a formula has ended. The caller knows that the whole had not.
fn end(above: u64) -> u64
    requires { 0 < above }
    ensures { (l : List Bool) → above ≡ bits l → result ≡ bits_of (ended l) }
{
    let mut above = above;
    while above % 2 == 0 {
        above /= 2;
    }
    above - 1
}

// Whether an operator is over two formulas: and, or, implies, Since.
fn over_two(code: usize) -> bool
    ensures { result ≡ over_two_lem code }
{
    (code == 32769) | (code == 32770) | (code == 32771) | (code == 32775)
}

// What is above after a code. The caller has seen that a formula may start with it.
fn pass(above: u64, code: usize) -> u64
    requires { (0 < above) × (above < 4294967296) }
    ensures { (l : List Bool) → above ≡ bits l → result ≡ bits_of (after code l) }
{
    if code < 32768 {
        return end(above);
    }
    if over_two(code) {
        above * 2 + 1
    } else {
        above * 2
    }
}

// Whether the codes in these bytes are one formula, at most 32 deep: at most 31 operators are above a code.
fn is_formula(codes: &[u8]) -> bool
    ensures { result ≡ is_formula_lem (words codes.now) }
{
    let mut above = 1;
    for code in Numbers(codes) {
        if (above == 0) | (4294967296 <= above) | (32775 < code) {
            return false;
        }
        above = pass(above, code);
    }
    above == 0
}

// Judges a formula's codes, after the mark for its record's number.
fn check_formula(codes: &[u8], facts: usize, marks: Marks) -> Result<(), Refusal>
    ensures { refused_by result ≡ judge_codes facts marks.count codes.now }
{
    if codes.len() % 2 == 1 {
        return Err(Refusal::Shape);
    }
    if marks.count | (255 < codes.len() / 2) {
        return Err(Refusal::Count);
    }
    if reaches(codes, facts, 32768) {
        return Err(Refusal::Fact);
    }
    if is_formula(codes) {
        Ok(())
    } else {
        Err(Refusal::Formula)
    }
}

// What is behind the length of the record that bytes start with, and what is behind the record, where that length fits.
fn split_body(bytes: &[u8]) -> Option<(&[u8], &[u8])>
    ensures { let size = word bytes.now in
        MatchOption result (length bytes.now < 2 + size) (λ p. (2 + size ≤ length bytes.now)
        × (p.0.now ≡ take size (drop 2 bytes.now)) × (p.1.now ≡ drop (2 + size) bytes.now)) }
{
    let (size, rest) = bytes.split_first_chunk::<2>()?;
    let size = word_at(size, 0);
    if size <= rest.len() {
        Some(rest.split_at(size))
    } else {
        None
    }
}

// The marks before a record's lists are looked at: whether record n is beyond its section's bound.
fn beyond(kind: Kind, n: usize) -> Marks
    ensures { result ≡ before kind n }
{
    let most = match kind {
        Kind::Clause => 4096,
        Kind::Rule => 2048,
        Kind::Maker => 2048,
        Kind::Goal => 64,
        Kind::Formula => 64,
    };
    Marks {
        count: most <= n,
        fact: false,
        name: false,
        order: false,
    }
}

// Judges record n of its section, which is whole, by what is behind its length.
fn check_body(body: &[u8], kind: Kind, n: usize, facts: usize) -> Result<(), Refusal>
    ensures { (r : List ℕ) → (whole r ≡ true) × (body.now ≡ drop 2 r) → refused_by result ≡ judge kind facts n r }
{
    let marks = beyond(kind, n);
    match kind {
        Kind::Clause => check_clause(body, facts, marks),
        Kind::Rule | Kind::Maker | Kind::Goal => check_lists(body, kind, facts, marks),
        Kind::Formula => check_formula(body, facts, marks),
    }
}

// The first fault of a section of records, or how many records it has. Over what is left, and not over `Records`, which
// cuts a record before its length is looked at: short clauses take up to a third longer then.
pub fn first_fault(section: &[u8], kind: Kind, facts: usize) -> Result<usize, Fault>
    ensures { let bytes = section.now in
        told result ≡ answer_or (first_fault_lem (judge kind facts) bytes) (length (records bytes)) }
{
    let mut rest = section;
    let mut n = 0;
    while !rest.is_empty() {
        let start = section.len() - rest.len();
        let Some((body, behind)) = split_body(rest) else {
            return Err(Fault {
                refusal: Refusal::Shape,
                start,
                size: rest.len(),
            });
        };
        if let Err(refusal) = check_body(body, kind, n, facts) {
            return Err(Fault {
                refusal,
                start,
                size: 2 + body.len(),
            });
        }
        rest = behind;
        n += 1;
    }
    Ok(n)
}

// Where record n of the section starts; the section's end where it has no such record.
pub fn place(section: &[u8], n: usize) -> usize
    ensures { result ≡ place_of n (records section.now) }
{
    let mut at = 0;
    for record in Records(section).take(n) {
        at += record.len();
    }
    at
}
