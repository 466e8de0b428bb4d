// The table over lists of records.
#![tactic(auto)]

ghost use Rattle.std.specs.Prelude.{◌≡◌};
ghost use Rattle.tables.specs.Asked.{list_in, info_of, entry_info_of, present};
ghost use Rattle.records.specs.Records.{module_of, entry_of, table_of, record_place, meaning_of};

use tables::parts::{EntryInfo, Export, ModuleInfo, Site, Symbol};
use tables::table::LinkTable;
use tables::thing::{Field, ModuleList, Thing};

// Flags and a wrap are numbers, as in what a table answers: those that are too large are refused with their place.
#[derive(Clone, Copy)]
pub struct ModuleRecord<'t> {
    pub flags: u32,
    pub namespace: Option<u32>,
    pub wrapper: Option<u32>,
    pub wrap: u32,
    pub loads: &'t [u32],
    pub dependencies: &'t [u32],
    pub resolved: &'t [u32],
    pub references: &'t [u32],
    pub exports: &'t [Export<'t>],
    pub partial: &'t [&'t [u8]],
}

#[derive(Clone, Copy)]
pub struct EntryRecord<'t> {
    pub root: u32,
    pub flags: u32,
    pub sites: &'t [Site],
}

#[derive(Clone, Copy)]
pub struct Header {
    pub runtime: Option<u32>,
    pub strict: bool,
}

#[derive(Clone, Copy)]
pub struct RecordTable<'t> {
    pub header: Header,
    pub modules: &'t [ModuleRecord<'t>],
    pub entries: &'t [EntryRecord<'t>],
    pub symbols: &'t [Symbol],
}

// The list that a record stands in.
#[derive(Clone, Copy, Debug, PartialEq, Eq)]
pub enum RecordList {
    // the one record of the header
    Header,
    Modules,
    // a list of numbers of a module
    Items(ModuleList, usize),
    Exports(usize),
    Partial(usize),
    Entries,
    Sites(usize),
    Symbols,
}

// A place among records: the list, and the number of the record in it, from 0.
#[derive(Clone, Copy, Debug, PartialEq, Eq)]
pub struct RecordPlace {
    pub list: RecordList,
    pub number: usize,
}

impl<'t> ModuleRecord<'t> {
    // A list of numbers of the module.
    fn list_in(&self, list: ModuleList) -> &'t [u32]
        ensures { result.now ≡ list_in list (module_of self.now) }
    {
        match list {
            ModuleList::Loads => self.loads,
            ModuleList::Dependencies => self.dependencies,
            ModuleList::Resolved => self.resolved,
            ModuleList::References => self.references,
        }
    }

    // The module with the lengths of its lists. A method and no `From`: the items do not go with it.
    fn info(&self) -> ModuleInfo
        ensures { result ≡ info_of (module_of self.now) }
    {
        ModuleInfo {
            flags: self.flags,
            namespace: self.namespace,
            wrapper: self.wrapper,
            wrap: self.wrap,
            loads: self.loads.len(),
            dependencies: self.dependencies.len(),
            resolved: self.resolved.len(),
            references: self.references.len(),
            exports: self.exports.len(),
            partial: self.partial.len(),
        }
    }
}

impl<'t> EntryRecord<'t> {
    // The entry with the number of its sites.
    fn info(&self) -> EntryInfo
        ensures { result ≡ entry_info_of (entry_of self.now) }
    {
        EntryInfo {
            root: self.root,
            flags: self.flags,
            sites: self.sites.len(),
        }
    }
}

// The place of a thing that is there.
impl From<Thing> for RecordPlace {
    ghost from_gives = { λ thing place. place ≡ record_place thing };

    fn from(thing: Thing) -> RecordPlace {
        let (list, number) = match thing {
            Thing::Header => (RecordList::Header, 0),
            Thing::Module(m) => (RecordList::Modules, m),
            Thing::Item(list, m, i) => (RecordList::Items(list, m), i),
            Thing::Export(m, i) => (RecordList::Exports(m), i),
            Thing::Partial(m, i) => (RecordList::Partial(m), i),
            Thing::Entry(e) => (RecordList::Entries, e),
            Thing::Site(e, i) => (RecordList::Sites(e), i),
            Thing::Symbol(s) => (RecordList::Symbols, s),
        };
        RecordPlace { list, number }
    }
}

impl<'t> RecordTable<'t> {
    // The table has the thing.
    fn has(&self, thing: Thing) -> bool
        ensures { result ≡ present (table_of self.now) thing }
    {
        match thing {
            Thing::Header => true,
            Thing::Module(m) => m < self.modules.len(),
            Thing::Item(list, m, i) => self
                .modules
                .get(m)
                .is_some_and(|row| i < row.list_in(list).len()),
            Thing::Export(m, i) => self.modules.get(m).is_some_and(|row| i < row.exports.len()),
            Thing::Partial(m, i) => self.modules.get(m).is_some_and(|row| i < row.partial.len()),
            Thing::Entry(e) => e < self.entries.len(),
            Thing::Site(e, i) => self.entries.get(e).is_some_and(|row| i < row.sites.len()),
            Thing::Symbol(s) => s < self.symbols.len(),
        }
    }
}

impl<'t> LinkTable<'t> for RecordTable<'t> {
    type Place = RecordPlace;

    ghost means = { meaning_of };

    fn module_count(&mut self) -> usize {
        self.modules.len()
    }

    fn entry_count(&mut self) -> usize {
        self.entries.len()
    }

    fn symbol_count(&mut self) -> usize {
        self.symbols.len()
    }

    fn runtime(&mut self) -> Option<u32> {
        self.header.runtime
    }

    fn strict(&mut self) -> bool {
        self.header.strict
    }

    fn module(&mut self, m: usize) -> Option<ModuleInfo> {
        self.modules.get(m).map(ModuleRecord::info)
    }

    fn item(&mut self, list: ModuleList, m: usize, i: usize) -> Option<u32> {
        self.modules.get(m)?.list_in(list).get(i).copied()
    }

    fn export(&mut self, m: usize, i: usize) -> Option<Export<'t>> {
        self.modules.get(m)?.exports.get(i).copied()
    }

    fn partial(&mut self, m: usize, i: usize) -> Option<&'t [u8]> {
        self.modules.get(m)?.partial.get(i).copied()
    }

    fn entry(&mut self, e: usize) -> Option<EntryInfo> {
        self.entries.get(e).map(EntryRecord::info)
    }

    fn site(&mut self, e: usize, i: usize) -> Option<Site> {
        self.entries.get(e)?.sites.get(i).copied()
    }

    fn symbol(&mut self, s: usize) -> Option<Symbol> {
        self.symbols.get(s).copied()
    }

    fn place_of(&mut self, thing: Thing, _field: Field) -> Option<RecordPlace> {
        self.has(thing).then(|| RecordPlace::from(thing))
    }
}
