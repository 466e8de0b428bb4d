// What the rows of a text say: the line of each thing, the columns of its fields, and the parts of a table.
#![tactic(auto)]

pub use column::line_column;
pub use look::{
    entry_row, export_line, item_line, line_of, module_row, partial_line, site_line, symbol_line,
};
pub use part::{entry_info, export_of, module_info, site_of, symbol_of};

mod column;
mod look;
mod part;
