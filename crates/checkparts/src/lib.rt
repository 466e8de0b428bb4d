// What the checks of a link table are made of: a fault with its place, the checks of one number, a check of each of so many
// things, and those of a module's and an entry's lists.
// `kept` stands in each contract: a question may change its table, and no type says that the meaning stays.
#![tactic(auto)]

pub mod each;
pub mod faults;
pub mod lists;
