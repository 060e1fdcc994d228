// What judged records and sections hold: the lists of a rule or an attack state, and whether a number is among others.

#![tactic(auto)]

ghost use Rattle.std.specs.Prelude.{◌<◌, ◌≡◌, true};
ghost use Rattle.sets.specs.Sets.{listed};
ghost use Rattle.records.specs.Words.{words, ascending};
ghost use Rattle.records.specs.Records.{list_count_lem};
ghost use Rattle.lists.specs.Lists.{Cut, ListBytes};

use records::Kind;

// Whether a number is among those of the bytes, by halves. The caller has judged that they are strictly ascending.
pub fn has(numbers: &[u8], n: usize) -> bool
    requires { ascending (words numbers.now) ≡ true }
    ensures { result ≡ listed (words numbers.now) n }
{
    let (pairs, _) = numbers.as_chunks::<2>();
    pairs
        .binary_search_by_key(&n, |pair| records::word_at(pair, 0))
        .is_ok()
}

// The bytes of list j of a rule or an attack state. The caller has judged the record.
pub fn list_of(whole: &[u8], kind: Kind, j: usize) -> &[u8]
    requires { Cut kind whole.now × (j < list_count_lem kind) }
    ensures { ListBytes kind whole.now j result.now }
{
    let mut at = 2;
    for _ in 0..j {
        at += 2 + records::word_at(whole, at) * 2;
    }
    let start = at + 2;
    let end = start + records::word_at(whole, at) * 2;
    &whole[start..end]
}
