// The lines of a link table's text: a letter, then fields of six columns each.
#![tactic(auto)]

pub use kinds::{
    DependencyLine, EntryLine, ExportLine, ItemLine, LoadLine, ModuleLine, PartialLine,
    ReferenceLine, ResolvedLine, SiteLine, SymbolLine, TableLine,
};
pub use line::{Line, read_line};
pub use line_kind::LineKind;
pub use wrong::WrongColumn;

mod field;
mod kinds;
mod line;
mod line_kind;
mod wrong;
