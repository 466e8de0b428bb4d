// The graph of a table's load dependencies, cut down to the modules that are normal and included.
// `kept` stands in each contract: a question may change its table, and no type says that the meaning stays.
#![tactic(auto)]

ghost use Rattle.std.specs.Prelude.{◌≡◌, ◌&&◌, length};
ghost use Rattle.tables.specs.View.{view};
ghost use Rattle.tables.specs.Flags.{flag};
ghost use Rattle.definitions.specs.Bits.{usable};
ghost use Rattle.reach.specs.Memory.{Frame, Ready};
ghost use Rattle.reach.specs.Steps.{MarksClosed, MarksReached};
ghost use Rattle.loads.specs.Loading.{if_usable, load_count, load_slot, load_shape};

use reach::{CountedGraph, Graph, Places, Slot, reach};
use std::marker::PhantomData;
use tables::parts::{INCLUDED, NORMAL};
use tables::table::LinkTable;
use tables::thing::ModuleList;

// Whether a module with these flags is normal and included.
fn is_usable(flags: u32) -> bool
    ensures { result ≡ (flag 1 flags && flag 2 flags) }
{
    flags & NORMAL != 0 && flags & INCLUDED != 0
}

// Whether module `m` is normal and included.
pub fn usable_module<'t, T: LinkTable<'t>>(table: &mut T, m: usize) -> bool
    ensures answer { result ≡ usable (view (T.means table.old).table) m }
    ensures kept { T.means table.new ≡ T.means table.old }
{
    table.module(m).is_some_and(|info| is_usable(info.flags))
}

// Module `m` itself, if it is normal and included.
pub fn if_usable<'t, T: LinkTable<'t>>(table: &mut T, m: usize) -> Option<usize>
    ensures answer { result ≡ if_usable (view (T.means table.old).table) m }
    ensures kept { T.means table.new ≡ T.means table.old }
{
    usable_module(table, m).then_some(m)
}

// How many modules `m` loads.
fn count_loads<'t, T: LinkTable<'t>>(table: &mut T, m: usize) -> usize
    ensures answer { result ≡ load_count (T.means table.old).table m }
    ensures kept { T.means table.new ≡ T.means table.old }
{
    table.module(m).map_or(0, |info| info.loads)
}

// Load `i` of module `m`, if that is a module that is normal and included.
fn usable_load<'t, T: LinkTable<'t>>(table: &mut T, m: usize, i: usize) -> Option<usize>
    ensures answer { result ≡ load_slot (T.means table.old).table m i }
    ensures kept { T.means table.new ≡ T.means table.old }
{
    let load = table.item(ModuleList::Loads, m, i)?;
    if_usable(table, load as usize)
}

// The graph whose nodes are the table's modules, and whose edges lead from a module to each usable one that it loads. It is
// walked over a table that is lent; what it holds decides whether it may be copied.
#[derive(Clone, Copy)]
pub struct Loads<'t, T> {
    pub table: T,
    // names the lifetime of the table's storage
    pub storage: PhantomData<&'t [u8]>,
}

impl<'a, 't, T: LinkTable<'t>> Graph for Loads<'t, &'a mut T> {
    ghost use Rattle.std.specs.Prelude.{ℕ};
    ghost use Rattle.std.proofs.Common.{ap};
    ghost use Rattle.tables.specs.Value.{Meaning};

    // which table it asks, and what that means
    ghost kind = { ℕ × Meaning T.Place };

    ghost means = { λ g. (g.table.ghost_name, T.LinkTable.means g.table.now) };

    ghost shape = { λ g. load_shape (T.LinkTable.means g.table.now).table };

    ghost same_shape = { λ g h e. ap (λ (m : ℕ × Meaning T.Place). load_shape m.1.table) e };

    fn next(&mut self, words: &[u64], v: usize, from: usize) -> Option<Slot> {
        let count = count_loads(self.table, v);
        // a `for`: in `find_map` the closure would hold the table, and what it leaves of it is not known
        for i in from..count {
            if let Some(node) = usable_load(self.table, v, i) {
                return Some(Slot { index: i, node });
            }
        }
        None
    }
}

impl<'a, 't, T: LinkTable<'t>> CountedGraph for Loads<'t, &'a mut T> {
    #[tactic(auto, unfolding(crate::specs::Loading::load_shape))]
    fn nodes(&mut self) -> usize {
        self.table.module_count()
    }
}

// Marks the usable modules that load dependencies lead to from `start`, as `reach` does.
pub fn reach_loads<'t, T: LinkTable<'t>>(
    table: &mut T,
    words: &mut [u64],
    places: Places,
    start: usize,
)
    requires ready { Ready places (load_shape (T.means table.old).table) (length words.old) start }
    requires closed { MarksClosed places (load_shape (T.means table.old).table) words.old }
    ensures reached { MarksReached places (load_shape (T.means table.old).table) start words.old words.new }
    ensures frame { Frame places (load_shape (T.means table.old).table).nodes words.old words.new }
    ensures kept { T.means table.new ≡ T.means table.old }
{
    let mut graph = Loads {
        table,
        storage: PhantomData,
    };
    reach(&mut graph, words, places, start);
    // taken apart, so that the table is known to be what the walk left of it
    let Loads {
        table: _table,
        storage: _,
    } = graph;
}
