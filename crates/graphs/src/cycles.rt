// Cycles of a graph, for any kind of graph.
ghost use Rattle.std.specs.Prelude.{◌≡◌, ℕ, ◌+◌, ◌≤◌, ◌↔◌, false, length, take, drop, IsTrue};
ghost use Rattle.reach.specs.Shape.{Edge};
ghost use Rattle.reach.specs.Memory.{marked, Room, Ready};
ghost use Rattle.graphs.specs.Spreads.{Back, Cycle, Scratch};

use reach::{CountedGraph, Graph, Places, reach};

// Takes every mark away, with all the words that marks stand in.
fn erase_marks(words: &mut [u64], places: Places)
    requires order { places.marks ≤ places.queue }
    requires within { places.queue ≤ length words.old }
    ensures none { (u : ℕ) → marked places words.new u ≡ false }
    ensures below { take places.marks words.new ≡ take places.marks words.old }
    ensures behind { drop places.queue words.new ≡ drop places.queue words.old }
{
    words[places.marks..places.queue].fill(0);
}

// Whether a path of one edge or more leads from `v` back to it. What the marks and the queue hold is lost.
pub fn on_cycle<G: Graph>(graph: &mut G, words: &mut [u64], places: Places, v: usize) -> bool
    requires { Ready places (G.shape graph.old) (length words.old) v }
    ensures answer { IsTrue result ↔ Back (Edge (G.shape graph.old) words.old) v }
    ensures scratch { Scratch places (G.shape graph.old).nodes words.old words.new }
    ensures kept { G.means graph.new ≡ G.means graph.old }
{
    erase_marks(words, places);
    // slots by number: an iterator would hold the graph, which `reach` walks in this loop
    let mut from = 0;
    while let Some(slot) = graph.next(words, v, from) {
        reach(graph, words, places, slot.node);
        from = slot.index + 1;
    }
    places.is_marked(words, v)
}

// Whether the graph has a cycle. What the marks and the queue hold is lost.
pub fn has_cycle<G: CountedGraph>(graph: &mut G, words: &mut [u64], places: Places) -> bool
    requires limit { (G.shape graph.old).limit ≤ places.marks }
    requires room { Room places (G.shape graph.old).nodes (length words.old) }
    ensures answer { IsTrue result ↔ Cycle (Edge (G.shape graph.old) words.old) }
    ensures scratch { Scratch places (G.shape graph.old).nodes words.old words.new }
    ensures kept { G.means graph.new ≡ G.means graph.old }
{
    // a `for`: in `any` the closure would hold graph and words, and what it leaves of them is not known
    for v in 0..graph.nodes() {
        if on_cycle(graph, words, places, v) {
            return true;
        }
    }
    false
}
