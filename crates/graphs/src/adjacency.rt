// Graphs whose edges are rows of bits in the memory itself: the row of node v begins at the word `at + 4 * v`, and has w
// where an edge leads from v to w.
ghost use Rattle.std.specs.Prelude.{◌≤◌};

use reach::{CountedGraph, Graph, Slot};
use rows::{next_below, test};

// The graph whose rows begin at the word `at`.
#[derive(Clone, Copy)]
pub struct RowsAt {
    pub at: usize,
    pub nodes: usize,
    ghost few: { nodes ≤ 256 },
}

// The graph `of`, but no edge leads from a node that the set at `barred` has.
#[derive(Clone, Copy)]
pub struct Unless<G> {
    pub of: G,
    pub barred: usize,
}

impl Graph for RowsAt {
    ghost use Rattle.std.proofs.Common.{ap};
    ghost use Rattle.graphs.specs.declared.adjacency.RowsAt.{RowsAt};
    ghost use Rattle.graphs.specs.Tests.{row_shape};

    ghost kind = { RowsAt };

    ghost means = { λ g. g };

    ghost shape = { λ g. row_shape g.at g.nodes };

    ghost same_shape = { λ g h e. ap (λ r. row_shape r.at r.nodes) e };

    #[tactic(auto, unfolding(crate::specs::Tests::test_shape))]
    fn next(&mut self, words: &[u64], v: usize, from: usize) -> Option<Slot> {
        next_below(words, self.at + 4 * v, from, self.nodes).map(|w| Slot { index: w, node: w })
    }
}

impl CountedGraph for RowsAt {
    #[tactic(auto, unfolding(crate::specs::Tests::test_shape))]
    fn nodes(&mut self) -> usize {
        self.nodes
    }
}

impl<G: Graph> Graph for Unless<G> {
    ghost use Rattle.std.specs.Prelude.{ℕ};
    ghost use Rattle.graphs.specs.Tests.{unless_shape, unless_same};

    ghost kind = { ℕ × G.kind };

    ghost means = { λ g. (g.barred, G.means g.of) };

    ghost shape = { λ g. unless_shape g.barred (G.shape g.of) };

    ghost same_shape = { λ g h e. unless_same e (G.same_shape g.of h.of) };

    #[tactic(auto, unfolding(crate::specs::Tests::unless_shape))]
    fn next(&mut self, words: &[u64], v: usize, from: usize) -> Option<Slot> {
        if test(words, self.barred, v) {
            return None;
        }
        self.of.next(words, v, from)
    }
}

impl<G: CountedGraph> CountedGraph for Unless<G> {
    #[tactic(auto, unfolding(crate::specs::Tests::unless_shape))]
    fn nodes(&mut self) -> usize {
        self.of.nodes()
    }
}
