// The first phase of a plan: which module has which entry, asked of a table, in rows of bits.
// The rows and the queue stand in one lent slice, each from a word of its own on, since a plan has no heap.
// `kept` stands in each contract: a question may change its table, and no type says that the meaning stays.
#![tactic(auto)]

ghost use Rattle.std.specs.Prelude.{◌≡◌, ◌<◌, ◌≤◌, length};
ghost use Rattle.bits.specs.Rows.{column, Area, NoBits, Filled, usable_root};

use loads::{if_usable, reach_loads};
use reach::Places;
use tables::table::LinkTable;

// Rows of bits, one for each module, and a queue for the modules that wait to be looked at. The row of module m begins at
// the word `rows + 4 * m`, and the queue at the word `queue`, with a word for each module.
#[derive(Clone, Copy, Debug, PartialEq, Eq)]
pub struct ModuleRows {
    pub rows: usize,
    pub queue: usize,
}

impl ModuleRows {
    // Where module m has entry `e`: bit e of its row.
    fn column(self, e: usize) -> Places
        ensures { result ≡ column self e }
    {
        Places {
            marks: self.rows,
            stride: 256,
            column: e,
            queue: self.queue,
        }
    }
}

// The module of entry `e`, if it is normal and included.
fn usable_root<'t, T: LinkTable<'t>>(table: &mut T, e: usize) -> Option<usize>
    requires { e < length (T.means table.old).table.entries }
    ensures answer { result ≡ usable_root (T.means table.old).table e }
    ensures kept { T.means table.new ≡ T.means table.old }
{
    let info = table.entry(e)?;
    if_usable(table, info.root as usize)
}

// Sets bit e of the row of each module that has entry e.
pub fn determine_reachable_modules<'t, T: LinkTable<'t>>(
    words: &mut [u64],
    table: &mut T,
    places: ModuleRows,
)
    requires few { length (T.means table.old).table.entries ≤ 256 }
    requires area { Area places (length (T.means table.old).table.modules) (length words.old) }
    requires empty { NoBits places (length (T.means table.old).table.modules) words.old }
    ensures filled { Filled (T.means table.old).table places (length (T.means table.old).table.entries) words.old words.new }
    ensures kept { T.means table.new ≡ T.means table.old }
{
    for e in 0..table.entry_count() {
        if let Some(m) = usable_root(table, e) {
            reach_loads(table, words, places.column(e), m);
        }
    }
}
