// Rows of equal bits form a class. The classes are numbered by their least rows.
// Rows, numbers and least rows stand in one lent slice, each list from a word of its own on, since a plan has no heap.
#![tactic(auto)]

ghost use Rattle.std.specs.Prelude.{◌+◌, ◌*◌, ◌<◌, ◌≤◌, length};
ghost use Rattle.rows.specs.Bits.{Next};
ghost use Rattle.definitions.specs.Classes.{Rows};
ghost use Rattle.classes.specs.Numbering.{row_has, Layout, same_as, Firsts, Numbering, Outside, Numbered};
ghost use Rattle.classes.specs.Copies.{CopyRoom, Copied};

use rows::{copy, is_empty, same};

pub mod atoms;

// Where, in the words, `count` rows begin, and their numbers, and the least rows of their classes.
#[derive(Clone, Copy, Debug, PartialEq, Eq)]
pub struct RowPlaces {
    pub rows: usize,
    pub count: usize,
    pub numbers: usize,
    pub firsts: usize,
}

// There are more classes than there may be: the least row of the first class too many.
#[derive(Clone, Copy, Debug, PartialEq, Eq)]
pub struct TooManyClasses {
    pub least: usize,
}

// The first of `found` classes that row `i` belongs to. How many are found is no place, and changes from row to row.
fn find_class(words: &[u64], at: RowPlaces, found: usize, i: usize) -> Option<usize>
    requires row_in { i < at.count }
    requires rows_in { at.rows + 4 * at.count ≤ length words.now }
    requires firsts_in { at.firsts + found ≤ length words.now }
    requires firsts_below { Firsts at found words.now }
    ensures { Next (same_as at words.now i) 0 found result }
{
    let row = at.rows + 4 * i;
    (0..found).find(|&a| same(words, at.rows + 4 * words[at.firsts + a] as usize, row))
}

// Numbers row `m`, where the rows before it are numbered and have `found` classes. Answers how many classes there are
// then.
fn number_row(
    words: &mut [u64],
    at: RowPlaces,
    most: usize,
    found: usize,
    m: usize,
) -> Result<usize, TooManyClasses>
    requires layout { Layout at most (length words.old) }
    requires row_in { m < at.count }
    requires at_most { found ≤ most }
    requires few { found ≤ m }
    requires firsts_below { Firsts at found words.old }
    ensures numbered { (bits : Rows) → Numbering bits at most m found words.old
        → Numbered bits at most (m + 1) words.new result }
    ensures outside { Outside at most words.old words.new }
{
    if is_empty(words, at.rows + 4 * m) {
        words[at.numbers + m] = 0;
        return Ok(found);
    }
    if let Some(a) = find_class(words, at, found, m) {
        words[at.numbers + m] = a as u64 + 1;
        return Ok(found);
    }
    if found == most {
        return Err(TooManyClasses { least: m });
    }
    words[at.firsts + found] = m as u64;
    words[at.numbers + m] = found as u64 + 1;
    Ok(found + 1)
}

// Numbers the rows by their classes: a row of class a has the number a + 1, and a row without bits 0, since a word has no
// room for an option. Answers how many classes there are; the error, where they are more than `most`, has the least row of
// the first class too many.
pub fn number_rows(words: &mut [u64], at: RowPlaces, most: usize) -> Result<usize, TooManyClasses>
    requires { Layout at most (length words.old) }
    ensures numbered { Numbered (row_has at.rows words.old) at most at.count words.new result }
    ensures outside { Outside at most words.old words.new }
{
    let mut found = 0;
    for m in 0..at.count {
        found = number_row(words, at, most, found, m)?;
    }
    Ok(found)
}

// Copies the least row of each of `found` classes to the rows that begin at the word `to`.
#[tactic(auto, using(crate::proofs::Copies::copied_more))]
pub fn copy_first_rows(words: &mut [u64], at: RowPlaces, found: usize, to: usize)
    requires { CopyRoom at found to words.old }
    ensures { Copied at to found words.old words.new }
{
    for a in 0..found {
        let first = words[at.firsts + a] as usize;
        copy(words, to + 4 * a, at.rows + 4 * first);
    }
}
