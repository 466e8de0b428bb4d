// What a table answers: its parts, as they stand there. Nothing says that a number names something.
// Flags and wraps are numbers, since a table also answers those that are too large: the checks refuse them with their place.

// The flags of a module that say whether it is normal and whether it is included.
pub const NORMAL: u32 = 1;

pub const INCLUDED: u32 = 2;

// A module without the items of its lists: how many there are.
#[derive(Clone, Copy, Debug, PartialEq, Eq)]
pub struct ModuleInfo {
    // the sum of the flags: 1 normal, 2 included, 4 side effects, 8 inner, 16 namespace included, 32 dynamic exports,
    // 64 side-effectful runtime dependency, 128 partial use
    pub flags: u32,
    pub namespace: Option<u32>,
    pub wrapper: Option<u32>,
    // 0 none, 1 CJS, 2 ESM
    pub wrap: u32,
    pub loads: usize,
    pub dependencies: usize,
    pub resolved: usize,
    pub references: usize,
    pub exports: usize,
    pub partial: usize,
}

// An export: its name is a part of the table's own storage.
#[derive(Clone, Copy, Debug, PartialEq, Eq)]
pub struct Export<'t> {
    pub symbol: u32,
    pub commonjs: bool,
    pub name: &'t [u8],
}

// An entry without its sites: how many there are.
#[derive(Clone, Copy, Debug, PartialEq, Eq)]
pub struct EntryInfo {
    pub root: u32,
    // the sum of the flags: 1 dynamic, 2 its chunk is imported dynamically and nothing else, 4 async, 8 strict signature
    pub flags: u32,
    pub sites: usize,
}

// A site that imports an entry.
#[derive(Clone, Copy, Debug, PartialEq, Eq)]
pub struct Site {
    pub importer: u32,
    pub target: Option<u32>,
    // the sum of the flags: 1 statement included, 2 dynamic import, 4 dead
    pub flags: u32,
}

#[derive(Clone, Copy, Debug, PartialEq, Eq)]
pub struct Symbol {
    pub owner: u32,
    // the symbol itself at the end of a chain
    pub link: u32,
    pub alias: Option<u32>,
    // 1 used
    pub flags: u32,
}
