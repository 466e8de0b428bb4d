// Graphs by rows of bits, and questions that the walk of `reach` answers.
// Rows, marks and queue stand in one lent slice, each from a word of its own on, since a plan has no heap.
#![tactic(auto)]

pub mod adjacency;
pub mod cover;
pub mod cycles;
