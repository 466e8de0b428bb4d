// Where everything stands in the words of a plan, and what each part says of a table.
// All parts stand in one lent slice, each from a word of its own on, since a plan has no heap.
#![tactic(auto)]

ghost use Rattle.std.specs.Prelude.{◌≡◌};
ghost use Rattle.areas.specs.Areas.{areas_of, OneBehindAnother};

use definitions::size::Size;

// The first word of each part of a plan's words: of a row of entries that are not dynamic; of a word for each entry (its
// host, its module); of a row and a word for each module (its entries, its atom); of what there is for each atom; of a row
// for each entry (what it imports); and of what is only worked with.
#[derive(Clone, Copy, Debug, PartialEq, Eq)]
pub struct Areas {
    pub starts: usize,
    pub hosts: usize,
    pub roots: usize,
    pub bits: usize,
    pub numbers: usize,
    pub firsts: usize,
    pub wholes: usize,
    pub cycles: usize,
    pub reaches: usize,
    pub loaders: usize,
    pub trials: usize,
    pub prepared: usize,
    pub verdicts: usize,
    pub imports: usize,
    pub scratch: usize,
}

impl Areas {
    // Each part begins behind the one before it. `of` and no `From`: the places are worked out for a size, and are not that size.
    pub fn of(size: Size) -> Areas
        ensures areas { result ≡ areas_of size.modules size.entries }
        ensures apart { OneBehindAnother result size.modules size.entries }
    {
        let Size { modules, entries } = size;
        let room = modules.min(256);
        let starts = 12;
        let hosts = starts + 4;
        let roots = hosts + entries;
        let bits = roots + entries;
        let numbers = bits + 4 * modules;
        let firsts = numbers + modules;
        let wholes = firsts + room;
        let cycles = wholes + 4 * room;
        let reaches = cycles + 4 * room;
        let loaders = reaches + 4 * room;
        let trials = loaders + 4 * room;
        let prepared = trials + 4 * room;
        let verdicts = prepared + room;
        let imports = verdicts + room;
        let scratch = imports + 4 * entries;
        Areas {
            starts,
            hosts,
            roots,
            bits,
            numbers,
            firsts,
            wholes,
            cycles,
            reaches,
            loaders,
            trials,
            prepared,
            verdicts,
            imports,
            scratch,
        }
    }
}
