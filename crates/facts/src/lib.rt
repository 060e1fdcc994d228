// A set of numbers in the first `width` bytes of a lent buffer. Every operation takes any buffer, any width and any
// number: a number whose byte lies outside the width or outside the buffer is not in the set and cannot be added.
// A width is a u32, so that 8 * width, the most numbers that a set can have, fits a count.

#![tactic(auto)]

ghost use Rattle.std.specs.Prelude.{◌≡◌, ◌*◌, ◌%◌, ◌^◌, take};
ghost use Rattle.sets.specs.Sets.{size};
ghost use Rattle.facts.specs.Facts.{within, Added, Removed, Cleared, AnyFrom};

// The bytes of a buffer that the set has: every index into a buffer is checked against these.
fn held(set: &[u8], width: u32) -> &[u8]
    ensures { result.now ≡ take width set.now }
{
    &set[..set.len().min(width as usize)]
}

// The bit of a number in its byte.
fn mask(n: usize) -> u8
    ensures { result ≡ 2 ^ (n % 8) }
{
    1u8 << (n % 8)
}

// Whether the number is in the set.
pub fn has(set: &[u8], width: u32, n: usize) -> bool
    ensures { result ≡ within width set.now n }
{
    match held(set, width).get(n / 8) {
        Some(byte) => *byte & mask(n) != 0,
        None => false,
    }
}

// Puts the number into the set, where the buffer has its byte.
// By index, as `remove` is: the library's `get_mut` says nothing of what the slice ends as.
pub fn add(set: &mut [u8], width: u32, n: usize)
    ensures { Added width set.old n set.new }
{
    if n / 8 < held(set, width).len() {
        set[n / 8] |= mask(n);
    }
}

// Takes the number out of the set.
pub fn remove(set: &mut [u8], width: u32, n: usize)
    ensures { Removed width set.old n set.new }
{
    if n / 8 < held(set, width).len() {
        set[n / 8] &= !mask(n);
    }
}

// Takes every number out of the set.
pub fn clear(set: &mut [u8], width: u32)
    ensures { Cleared width set.old set.new }
{
    let all = held(set, width).len();
    set[..all].fill(0);
}

// How many numbers are in the set.
pub fn count(set: &[u8], width: u32) -> usize
    ensures { result ≡ size (within width set.now) (8 * width) }
{
    let bytes = held(set, width);
    bytes.iter().map(|byte| byte.count_ones() as usize).sum()
}

// Whether a number of `from` or more is in the set: the first byte is shifted past the numbers below `from`, and each
// later one is looked at whole.
pub fn any_from(set: &[u8], width: u32, from: usize) -> bool
    ensures { AnyFrom width set.now from result }
{
    let Some(part) = held(set, width).get(from / 8..) else {
        return false;
    };
    match part {
        [first, later @ ..] => *first >> (from % 8) > 0 || later.iter().any(|byte| *byte > 0),
        [] => false,
    }
}
