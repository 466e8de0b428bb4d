// What begin refuses of a link table, by questions alone: counts, words, numbers, links and names. One text for every table.
// `kept` stands in each contract: a question may change its table, and no type says that the meaning stays.
#![tactic(auto)]

pub mod counts;
pub mod links;
pub mod names;
pub mod words;

pub use checknumbers::check_numbers;
