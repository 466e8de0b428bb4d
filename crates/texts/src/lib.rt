// The text of a link table, read into rows: its lines by module and entry.
#![tactic(auto)]

pub use place::TextPlace;
pub use rows::{EntryRow, ModuleRow, Numbered, TextRows};
pub use text::read_text;
pub use unreadable::Unreadable;

mod cut;
mod parse;
mod place;
mod reader;
mod reading;
mod rows;
mod text;
mod unreadable;
