// Where walks over rows of bits answer what the definitions ask: which entries an atom is not covered for, and whether a
// graph has a cycle.
#![tactic(auto)]

ghost use Rattle.std.specs.Prelude.{◌≡◌, ℕ, ◌<◌, ◌≤◌, Bool, false, not, length};
ghost use Rattle.tables.specs.View.{View};
ghost use Rattle.definitions.specs.Cover.{covered};
ghost use Rattle.definitions.specs.Graph.{cyclic};
ghost use Rattle.rows.specs.Bits.{has};
ghost use Rattle.reach.specs.Memory.{row_places};
ghost use Rattle.graphs.specs.Cover.{CoverRoom, Outside};
ghost use Rattle.graphs.specs.Spreads.{Scratch};
ghost use Rattle.covering.specs.Covering.{SaysImports};
ghost use Rattle.covering.specs.Edges.{SaysEdges, CycleRoom};

use graphs::adjacency::{RowsAt, Unless};
use graphs::cover::uncovered;
use graphs::cycles::has_cycle;
use reach::{Places, RowMarks};

// Marks, in the row of marks, the entries that an atom is not covered for, where the rows of the graph say which entries
// import which, the barred row which entries load the atom, and the row at `starts` which entries are not dynamic.
pub fn mark_uncovered(words: &mut [u64], graph: Unless<RowsAt>, starts: usize, row: RowMarks)
    requires { CoverRoom graph starts row (length words.old) }
    ensures covers { (t : View) (a : ℕ) → SaysImports t a graph starts words.old
        → (e : ℕ) → e < graph.of.nodes → has words.new row.marks e ≡ not (covered t a e) }
    ensures none { (e : ℕ) → graph.of.nodes ≤ e → e < 256 → has words.new row.marks e ≡ false }
    ensures outside { Outside row graph.of.nodes words.old words.new }
{
    uncovered(words, graph, starts, row);
}

// Whether the graph in the rows has a cycle. What the words from the marks to the end of the queue hold is lost.
#[tactic(auto, using(graphs::proofs::Marks::row_room), unfolding(graphs::specs::Tests::test_shape))]
pub fn rows_have_cycle(words: &mut [u64], mut graph: RowsAt, row: RowMarks) -> bool
    requires { CycleRoom graph row (length words.old) }
    ensures answer { (g : ℕ → ℕ → Bool) → SaysEdges g graph words.old → result ≡ cyclic graph.nodes g }
    ensures scratch { Scratch (row_places row) graph.nodes words.old words.new }
{
    has_cycle(&mut graph, words, Places::from(row))
}
