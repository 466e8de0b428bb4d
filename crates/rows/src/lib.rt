// Sets of small numbers as bits of 64-bit words in a lent slice.
// A set begins at the word `at`; a row has four words, for the numbers below 256.
// Words and place are apart: `union` has two rows of one `&mut` slice, and `set` may write a set longer than a row.
#![tactic(auto)]

ghost use Rattle.std.specs.Prelude.{◌≡◌, ℕ, ◌+◌, ◌*◌, ◌/◌, ◌^◌, ◌<◌, ◌≤◌, ◌↔◌, false, length, slice_index, IsTrue};
ghost use Rattle.rows.specs.Bits.{has, with_bit, without_bit, union_row, meet_row, minus_row, copied_row, empty_row};
ghost use Rattle.rows.specs.Bits.{Combined, count, Next};
ghost use Rattle.rows.specs.Gives.{Gives};

use std::array;

mod iter;

pub use iter::Members;

// The word whose only bit is `k`.
pub fn mask(k: usize) -> u64
    requires { k < 64 }
    ensures { result ≡ 2 ^ k }
{
    1 << k
}

// Whether the set has `i`.
#[tactic(auto, using(crate::proofs::Digits::bit_test), unfolding(crate::specs::Bits::has))]
pub fn test(words: &[u64], at: usize, i: usize) -> bool
    requires { at + i / 64 < length words.now }
    ensures { result ≡ has words.now at i }
{
    words[at + i / 64] & mask(i % 64) != 0
}

// Puts `i` into the set.
#[tactic(auto, unfolding(crate::specs::Bits::with_bit))]
pub fn set(words: &mut [u64], at: usize, i: usize)
    requires { at + i / 64 < length words.old }
    ensures { words.new ≡ with_bit words.old at i }
{
    words[at + i / 64] |= mask(i % 64);
}

// Takes `i` out of the set.
#[tactic(auto, unfolding(crate::specs::Bits::without_bit))]
pub fn clear(words: &mut [u64], at: usize, i: usize)
    requires { at + i / 64 < length words.old }
    ensures { words.new ≡ without_bit words.old at i }
{
    words[at + i / 64] &= !mask(i % 64);
}

// The four words of the row.
fn row_words(words: &[u64], at: usize) -> [u64; 4]
    requires { at + 4 ≤ length words.now }
    ensures { (k : ℕ) → k < 4 → slice_index result k ≡ slice_index words.now (at + k) }
{
    array::from_fn(|k| words[at + k])
}

// Makes each word of the row at `to` what `of` makes of it and of the word of the row at `from`, as both are at first.
fn combine<F: Fn(u64, u64) -> u64>(words: &mut [u64], to: usize, from: usize, of: F)
    requires to_row { to + 4 ≤ length words.old }
    requires from_row { from + 4 ≤ length words.old }
    requires callable { F.IsAlwaysCallable of }
    ensures { Combined (F.post of) to from words.old words.new }
{
    // all of it is read before any of it is written, since the two rows may overlap
    let row = row_words(words, from);
    for (k, &word) in row.iter().enumerate() {
        words[to + k] = of(words[to + k], word);
    }
}

// Puts what the row at `from` has into the row at `to`.
pub fn union(words: &mut [u64], to: usize, from: usize)
    requires to_row { to + 4 ≤ length words.old }
    requires from_row { from + 4 ≤ length words.old }
    ensures { words.new ≡ union_row words.old to from }
{
    combine(words, to, from, |a, b| a | b);
}

// Keeps of the row at `to` what the row at `from` has too.
pub fn intersect(words: &mut [u64], to: usize, from: usize)
    requires to_row { to + 4 ≤ length words.old }
    requires from_row { from + 4 ≤ length words.old }
    ensures { words.new ≡ meet_row words.old to from }
{
    combine(words, to, from, |a, b| a & b);
}

// Takes out of the row at `to` what the row at `from` has.
pub fn subtract(words: &mut [u64], to: usize, from: usize)
    requires to_row { to + 4 ≤ length words.old }
    requires from_row { from + 4 ≤ length words.old }
    ensures { words.new ≡ minus_row words.old to from }
{
    combine(words, to, from, |a, b| a & !b);
}

// Makes the row at `to` have what the row at `from` has.
pub fn copy(words: &mut [u64], to: usize, from: usize)
    requires to_row { to + 4 ≤ length words.old }
    requires from_row { from + 4 ≤ length words.old }
    ensures { words.new ≡ copied_row words.old to from }
{
    words.copy_within(from..from + 4, to);
}

// Takes every number out of the row.
pub fn erase(words: &mut [u64], at: usize)
    requires { at + 4 ≤ length words.old }
    ensures { words.new ≡ empty_row words.old at }
{
    words[at..at + 4].fill(0);
}

// Whether the row has no number.
pub fn is_empty(words: &[u64], at: usize) -> bool
    requires { at + 4 ≤ length words.now }
    ensures { IsTrue result ↔ ((i : ℕ) → i < 256 → has words.now at i ≡ false) }
{
    // every word is looked at: a branch at each would cost more than it saves
    let row = &words[at..at + 4];
    row.iter().fold(true, |all, word| all & (*word == 0))
}

// Whether two rows have the same numbers.
pub fn same(words: &[u64], a: usize, b: usize) -> bool
    requires a_row { a + 4 ≤ length words.now }
    requires b_row { b + 4 ≤ length words.now }
    ensures { IsTrue result ↔ ((i : ℕ) → i < 256 → has words.now a i ≡ has words.now b i) }
{
    // every pair is looked at, as in `is_empty`
    let pairs = words[a..a + 4].iter().zip(&words[b..b + 4]);
    pairs.fold(true, |all, (x, y)| all & (x == y))
}

// How many numbers the row has.
pub fn size(words: &[u64], at: usize) -> u32
    requires { at + 4 ≤ length words.now }
    ensures { result ≡ count (has words.now at) 256 }
{
    words[at..at + 4].iter().map(|word| word.count_ones()).sum()
}

// The least number of the row from `from` on. A loop over the row asks with one more than the last answer.
pub fn next(words: &[u64], at: usize, from: usize) -> Option<usize>
    requires { at + 4 ≤ length words.now }
    ensures { Next (has words.now at) from 256 result }
{
    let first = from / 64;
    if first >= 4 {
        return None;
    }
    // the first word apart: it alone is shifted
    let rest = words[at + first] >> (from % 64);
    if rest != 0 {
        return Some(from + rest.trailing_zeros() as usize);
    }
    // a `for`: the closure of a `find_map` would have the same three lines
    for k in first + 1..4 {
        let word = words[at + k];
        if word != 0 {
            return Some(64 * k + word.trailing_zeros() as usize);
        }
    }
    None
}

// The least number of the row from `from` on and below `end`.
pub fn next_below(words: &[u64], at: usize, from: usize, end: usize) -> Option<usize>
    requires row { at + 4 ≤ length words.now }
    requires end_in { end ≤ 256 }
    ensures { Next (has words.now at) from end result }
{
    next(words, at, from).filter(|i| *i < end)
}

// The numbers of the row below `end`, the least first, as the row is now: the words may be written meanwhile.
#[tactic(auto, unfolding(crate::specs::Bits::has))]
pub fn members(words: &[u64], at: usize, end: usize) -> Members
    requires row { at + 4 ≤ length words.now }
    requires end_in { end ≤ 256 }
    ensures { Gives (has words.now at) 0 end result }
{
    Members {
        row: row_words(words, at),
        from: 0,
        end,
    }
}
