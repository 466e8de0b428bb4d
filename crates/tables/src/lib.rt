// Link tables: what one means, the questions that every table answers, faults, and vetoes.
#![tactic(auto)]

ghost use Rattle.tables.specs.Links.{canon, endless, Chains};

pub mod fault;
pub mod parts;
pub mod table;
pub mod thing;
pub mod veto;

// A link chain ends at `canon`, or it is endless.
pub fn chains_end()
    ensures { Chains canon endless }
{}
