// What can be reached in a graph, for any kind of graph whose nodes are numbers. A graph may read the words of a memory,
// and the marks and the queue of a walk stand in that memory too.
#![tactic(auto)]

ghost use Rattle.std.specs.Prelude.{◌≡◌, ℕ, ◌+◌, ◌*◌, ◌^◌, ◌<◌, ◌≤◌, true, false, length};
ghost use Rattle.rows.specs.Bits.{count};
ghost use Rattle.reach.specs.Shape.{Shape, NextSlot};
ghost use Rattle.reach.specs.Memory.{mark_bit, marked, row_places, Spot, Frame, Ready};
ghost use Rattle.reach.specs.Steps.{MarksClosed, MarksReached, FoundNode, Visited};

use rows::{set, test};

// Where the marks and the queue stand. The mark of node u is bit `stride * u + column` of the set that begins at the word
// `marks`.
#[derive(Clone, Copy, Debug, PartialEq, Eq)]
pub struct Places {
    pub marks: usize,
    pub stride: usize,
    pub column: usize,
    pub queue: usize,
}

// Marks in a row of their own, which begins at the word `marks`, and a queue.
#[derive(Clone, Copy, Debug, PartialEq, Eq)]
pub struct RowMarks {
    pub marks: usize,
    pub queue: usize,
}

// The places of marks in a row of their own: the mark of node u is bit u of the row.
impl From<RowMarks> for Places {
    ghost from_gives = { λ row places. places ≡ row_places row };

    fn from(row: RowMarks) -> Places {
        Places {
            marks: row.marks,
            stride: 1,
            column: 0,
            queue: row.queue,
        }
    }
}

impl Places {
    // Which bit of the set is the mark of node `w`.
    fn bit(self, w: usize) -> usize
        requires { self.stride * w + self.column < 2 ^ 64 }
        ensures { result ≡ mark_bit self w }
    {
        self.stride * w + self.column
    }

    // Whether node `w` is marked.
    pub fn is_marked(self, words: &[u64], w: usize) -> bool
        requires { Spot self w (length words.now) }
        ensures { result ≡ marked self words.now w }
    {
        test(words, self.marks, self.bit(w))
    }
}

// A slot of a node that is filled, and the node in it.
#[derive(Clone, Copy, Debug, PartialEq, Eq)]
pub struct Slot {
    pub index: usize,
    pub node: usize,
}

// A graph that is asked. `means` is what no question changes, and its shape follows from that.
// Slots are asked for by number: an iterator would hold the graph by `&mut` in a loop where a search for cycles walks it.
// A question takes `&mut self`, since a graph may ask a table: so each clause `kept` is said, and no type can hold it.
// Graph, words and places are three arguments of a walk: its caller goes on with each of them between two walks.
pub trait Graph {
    ghost kind: { Type 0 };

    ghost means: { Self → kind };

    ghost shape: { Self → Shape };

    // The first filled slot of the node `v` from the slot `from` on.
    fn next(&mut self, words: &[u64], v: usize, from: usize) -> Option<Slot>
        requires limit { (shape self.old).limit ≤ length words.now }
        requires node { v < (shape self.old).nodes }
        ensures answer { NextSlot (shape self.old) words.now v from result }
        ensures kept { means self.new ≡ means self.old };

    ghost same_shape: { (g h : Self) → means g ≡ means h → shape g ≡ shape h };
}

// A graph that can be asked how many nodes it has, as a search over all of them asks. A walk does without.
pub trait CountedGraph: Graph {
    // How many nodes there are.
    fn nodes(&mut self) -> usize
        ensures answer { result ≡ (Self.shape self.old).nodes }
        ensures kept { Self.means self.new ≡ Self.means self.old };
}

// Marks `w` and puts it at the end of the queue, unless it is marked.
fn find(words: &mut [u64], places: Places, tail: usize, w: usize) -> usize
    requires spot { Spot places w (length words.old) }
    requires room { marked places words.old w ≡ false → places.queue + tail < length words.old }
    ensures found { FoundNode places tail w words.old words.new result }
    ensures frame { (n : ℕ) → w < n → (marked places words.old w ≡ false → tail < n)
        → Frame places n words.old words.new }
{
    if places.is_marked(words, w) {
        return tail;
    }
    set(words, places.marks, places.bit(w));
    words[places.queue + tail] = w as u64;
    tail + 1
}

// Finds each node that an edge from `v` leads to.
fn visit<G: Graph>(graph: &mut G, words: &mut [u64], places: Places, tail: usize, v: usize) -> usize
    requires ready { Ready places (G.shape graph.old) (length words.old) v }
    requires few { tail ≤ count (marked places words.old) (G.shape graph.old).nodes }
    ensures visited { Visited places (G.shape graph.old) words.old tail v words.new result }
    ensures kept { G.means graph.new ≡ G.means graph.old }
{
    let mut end = tail;
    // slots by number, as `Graph` says
    let mut from = 0;
    while let Some(slot) = graph.next(words, v, from) {
        end = find(words, places, end, slot.node);
        from = slot.index + 1;
    }
    end
}

// Marks what can be reached from `start`. What is marked before has to be closed under the edges, as no marks are, and
// as the marks of an earlier call are. The queue is a part of the lent words, with head and tail: a deque needs a heap.
pub fn reach<G: Graph>(graph: &mut G, words: &mut [u64], places: Places, start: usize)
    requires ready { Ready places (G.shape graph.old) (length words.old) start }
    requires closed { MarksClosed places (G.shape graph.old) words.old }
    ensures reached { MarksReached places (G.shape graph.old) start words.old words.new }
    ensures frame { Frame places (G.shape graph.old).nodes words.old words.new }
    ensures kept { G.means graph.new ≡ G.means graph.old }
{
    let mut head = 0;
    let mut tail = find(words, places, 0, start);
    while head < tail {
        let v = words[places.queue + head] as usize;
        head += 1;
        tail = visit(graph, words, places, tail, v);
    }
}
