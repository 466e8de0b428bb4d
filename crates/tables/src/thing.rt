// What stands in a table, as a question or a fault names it.

// A list of numbers that each module has.
#[derive(Clone, Copy, Debug, PartialEq, Eq)]
pub enum ModuleList {
    // L: the modules that it loads
    Loads,
    // D: the modules that it depends on
    Dependencies,
    // R: the modules that its records resolve to, without those of dynamic imports
    Resolved,
    // U: the symbols that it references
    References,
}

// A thing of a table: a record of its own, or a line in a text. Numbers count from 0.
#[derive(Clone, Copy, Debug, PartialEq, Eq)]
pub enum Thing {
    // counts, runtime and strict
    Header,
    Module(usize),
    // an item of a module's list: the list, the module, the item
    Item(ModuleList, usize, usize),
    // an export of a module
    Export(usize, usize),
    // a name of partial use of a module
    Partial(usize, usize),
    Entry(usize),
    // a site of an entry
    Site(usize, usize),
    Symbol(usize),
}

// What of a thing is meant: the thing as a whole, or one of its fields.
#[derive(Clone, Copy, Debug, PartialEq, Eq)]
pub enum Field {
    Whole,
    // of the header
    Runtime,
    // of a module
    Flags,
    Namespace,
    Wrapper,
    Wrap,
    // the number of an item
    Number,
    // of an export; a name of partial use has a name too
    ExportedSymbol,
    Name,
    // of an entry, beside its flags
    Root,
    // of a site, beside its flags
    Importer,
    Target,
    // of a symbol, beside its flags
    Owner,
    Link,
    Alias,
}
