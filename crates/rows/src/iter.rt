// The numbers of a row in turn. The iterator has a copy of the row's words, so the slice that they come from may be
// written meanwhile.
ghost use Rattle.std.specs.Prelude.{◌≤◌};

use super::next_below;

// What is still to be given: the numbers of the row from `from` on and below `end`.
#[derive(Debug, Drop)]
pub struct Members {
    pub(crate) row: [u64; 4],
    pub(crate) from: usize,
    pub(crate) end: usize,
    ghost end_in: { end ≤ 256 },
}

impl Iterator for Members {
    ghost use Rattle.std.specs.Prelude.{◌-◌};
    ghost use Rattle.std.specs.Iterator.{at_most};
    ghost use Rattle.rows.specs.Gives.{GivesNext};

    type Item = usize;

    ghost next_gives = { GivesNext };

    ghost remaining = { λ s. at_most (s.end - s.from) };

    fn next(&mut self) -> Option<usize> {
        let i = next_below(&self.row, 0, self.from, self.end)?;
        self.from = i + 1;
        Some(i)
    }
}
