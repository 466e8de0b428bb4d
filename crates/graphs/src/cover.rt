// What import chains lead to, where a chain goes on from no entry that is barred.
ghost use Rattle.std.specs.Prelude.{ℕ, ◌<◌, ◌↔◌, length, IsTrue};
ghost use Rattle.rows.specs.Bits.{has};
ghost use Rattle.graphs.specs.Cover.{CoverRoom, Led, Outside};

use crate::adjacency::{RowsAt, Unless};
use reach::{Places, RowMarks, reach};
use rows::{erase, members};

// Marks, in the row of marks, each node that a path leads to from some node of the row at `starts`: such a node itself
// too, and from a barred node no edge leads on.
pub fn uncovered(words: &mut [u64], mut graph: Unless<RowsAt>, starts: usize, row: RowMarks)
    requires { CoverRoom graph starts row (length words.old) }
    ensures led { (e : ℕ) → e < 256 → IsTrue (has words.new row.marks e) ↔ Led graph starts words.old e }
    ensures outside { Outside row graph.of.nodes words.old words.new }
{
    erase(words, row.marks);
    let places = Places::from(row);
    for i in members(words, starts, graph.of.nodes) {
        reach(&mut graph, words, places, i);
    }
}
