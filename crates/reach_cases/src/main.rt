// Walks over a graph of five nodes: 0 to 1, 1 to 2, 3 to 0, and 4 alone. All stands in forty words: the rows of the graph,
// the row of barred nodes, that of starts, the marks and the queue.
#![tactic(auto)]

ghost use Rattle.std.specs.Prelude.{◌<◌};

use graphs::adjacency::{RowsAt, Unless};
use graphs::cover::uncovered;
use graphs::cycles::has_cycle;
use reach::{Places, RowMarks, reach};
use rows::{erase, set};
use std::io;

const ROWS: RowsAt = RowsAt { at: 0, nodes: 5 };

const BARRED: usize = 20;

const STARTS: usize = 24;

const MARKS: RowMarks = RowMarks {
    marks: 28,
    queue: 32,
};

// Adds the edge from `v` to `w`.
fn join(words: &mut [u64; 40], v: usize, w: usize)
    requires from { v < 5 }
    requires to { w < 5 }
{
    set(words, 4 * v, w);
}

// The nodes that can be reached from `start`, as bits.
#[tactic(auto, using(graphs::proofs::Marks::row_room), unfolding(graphs::specs::Tests::test_shape))]
fn reached(words: &mut [u64; 40], start: usize) -> u64
    requires { start < 5 }
{
    erase(words, MARKS.marks);
    let mut graph = ROWS;
    reach(&mut graph, words, Places::from(MARKS), start);
    words[MARKS.marks]
}

// Whether the graph has a cycle.
#[tactic(auto, unfolding(graphs::specs::Tests::test_shape))]
fn cyclic(words: &mut [u64; 40]) -> bool {
    let mut graph = ROWS;
    has_cycle(&mut graph, words, Places::from(MARKS))
}

// The nodes that can be reached from `start` where no edge leads from `barred`, as bits.
fn led(words: &mut [u64; 40], start: usize, barred: usize) -> u64
    requires start_in { start < 5 }
    requires barred_in { barred < 5 }
{
    erase(words, BARRED);
    set(words, BARRED, barred);
    erase(words, STARTS);
    set(words, STARTS, start);
    let graph = Unless {
        of: ROWS,
        barred: BARRED,
    };
    uncovered(words, graph, STARTS, MARKS);
    words[MARKS.marks]
}

fn main(rt: HostRuntime) -> io::Result<()> {
    let mut words = [0u64; 40];
    join(&mut words, 0, 1);
    join(&mut words, 1, 2);
    join(&mut words, 3, 0);
    let from_one = reached(&mut words, 1);
    let from_three = reached(&mut words, 3);
    let open = led(&mut words, 3, 4);
    let shut = led(&mut words, 3, 0);
    let before = cyclic(&mut words);
    join(&mut words, 2, 3);
    let after = cyclic(&mut words);
    println!(rt; "from 1: {from_one}, from 3: {from_three}")?;
    println!(rt; "from 3, 4 barred: {open}, 0 barred: {shut}")?;
    println!(rt; "a cycle: {before}, with an edge from 2 to 3: {after}")
}
