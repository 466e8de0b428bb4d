// What the lines of each kind say. A field that may be blank is an option. Flags and a wrap are numbers: a text with too
// large ones is opened all the same, and the checks refuse them with their place.
// Lines and a table's parts do not know one another, though some have the same fields: a text is read without any table.

// T
#[derive(Debug, Clone, Copy, PartialEq, Eq)]
pub struct TableLine {
    pub modules: u32,
    pub entries: u32,
    pub symbols: u32,
    pub runtime: Option<u32>,
    pub strict: bool,
}

// M
#[derive(Debug, Clone, Copy, PartialEq, Eq)]
pub struct ModuleLine {
    pub flags: u32,
    pub namespace: Option<u32>,
    pub wrapper: Option<u32>,
    pub wrap: u32,
}

// L, D, R or U: an item of one of a module's lists of numbers. The letter is the byte that stands in the text.
#[derive(Debug, Clone, Copy, PartialEq, Eq)]
pub struct ItemLine<const LETTER: u8> {
    pub number: u32,
}

// X: the name is a part of the line
#[derive(Debug, Clone, Copy, PartialEq, Eq)]
pub struct ExportLine<'t> {
    pub symbol: u32,
    pub commonjs: bool,
    pub name: &'t [u8],
}

// P: the name is a part of the line
#[derive(Debug, Clone, Copy, PartialEq, Eq)]
pub struct PartialLine<'t> {
    pub name: &'t [u8],
}

// E
#[derive(Debug, Clone, Copy, PartialEq, Eq)]
pub struct EntryLine {
    pub root: u32,
    pub flags: u32,
}

// I
#[derive(Debug, Clone, Copy, PartialEq, Eq)]
pub struct SiteLine {
    pub importer: u32,
    pub resolved: Option<u32>,
    pub flags: u32,
}

// S
#[derive(Debug, Clone, Copy, PartialEq, Eq)]
pub struct SymbolLine {
    pub owner: u32,
    pub link: u32,
    pub alias: Option<u32>,
    pub flags: u32,
}

pub type LoadLine = ItemLine<b'L'>;

pub type DependencyLine = ItemLine<b'D'>;

pub type ResolvedLine = ItemLine<b'R'>;

pub type ReferenceLine = ItemLine<b'U'>;
