// The rows of a text: its lines by module and entry, each list in a `Vec` of its own.
use lines::{
    DependencyLine, EntryLine, ExportLine, LoadLine, ModuleLine, PartialLine, ReferenceLine,
    ResolvedLine, SiteLine, SymbolLine, TableLine,
};

// A line with its number, from 1.
#[derive(Debug, Clone, Copy, PartialEq, Eq)]
pub struct Numbered<L> {
    pub number: usize,
    pub line: L,
}

// A module: its M line, and its L, D, R, U, X and P lines.
#[derive(Debug, Drop)]
pub struct ModuleRow<'t> {
    pub head: Numbered<ModuleLine>,
    pub loads: Vec<Numbered<LoadLine>>,
    pub dependencies: Vec<Numbered<DependencyLine>>,
    pub resolved: Vec<Numbered<ResolvedLine>>,
    pub references: Vec<Numbered<ReferenceLine>>,
    pub exports: Vec<Numbered<ExportLine<'t>>>,
    pub partial: Vec<Numbered<PartialLine<'t>>>,
}

// An entry: its E line, and its I lines.
#[derive(Debug, Drop)]
pub struct EntryRow {
    pub head: Numbered<EntryLine>,
    pub sites: Vec<Numbered<SiteLine>>,
}

// A text: its T line, its modules and entries, and its S lines.
#[derive(Debug, Drop)]
pub struct TextRows<'t> {
    pub head: Numbered<TableLine>,
    pub modules: Vec<ModuleRow<'t>>,
    pub entries: Vec<EntryRow>,
    pub symbols: Vec<Numbered<SymbolLine>>,
}
