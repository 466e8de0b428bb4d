// The table over a text: the text is read once, into rows, and each question is a look-up.
#![tactic(auto)]

pub use table::TextTable;

mod table;
