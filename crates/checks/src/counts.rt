// Refuses counts over their maximum.
ghost use Rattle.std.specs.Prelude.{◌≡◌, Ok};
ghost use Rattle.std.specs.List.{slice_get};
ghost use Rattle.std.specs.Option.{option_map_or};
ghost use Rattle.tables.specs.declared.thing.Thing.TheVariants as thing;
ghost use Rattle.definitions.specs.Checks.{few, counts_checked, few_in_module, few_in_entry};

use checkparts::each::{Check, check_each};
use checkparts::faults::check_few;
use tables::fault::Fault;
use tables::table::LinkTable;
use tables::thing::{ModuleList, Thing};

const MAX_MODULES: usize = 4096;

const MAX_ENTRIES: usize = 256;

const MAX_SYMBOLS: usize = 16384;

// Of each list.
const MAX_ITEMS: usize = 4096;

// Refuses a list of module `m` with `n` items where those are too many.
fn check_list<'t, T: LinkTable<'t>>(
    table: &mut T,
    list: ModuleList,
    m: usize,
    n: usize,
) -> Result<(), Fault<T::Place>>
    ensures answer { result ≡ few (T.means table.old).place 4096 (thing.Item list m 4096) n }
    ensures kept { T.means table.new ≡ T.means table.old }
{
    check_few(table, MAX_ITEMS, Thing::Item(list, m, MAX_ITEMS), n)
}

// A module's lists are not too long.
#[derive(Clone, Copy)]
struct ModuleLists;

impl<'t, T: LinkTable<'t>> Check<'t, T> for ModuleLists {
    ghost says = { λ _ v m. option_map_or (few_in_module v.place m) (slice_get v.table.modules m) (Ok tt) };

    fn check(&self, table: &mut T, m: usize) -> Result<(), Fault<T::Place>> {
        let Some(info) = table.module(m) else {
            return Ok(());
        };
        check_list(table, ModuleList::Loads, m, info.loads)?;
        check_list(table, ModuleList::Dependencies, m, info.dependencies)?;
        check_list(table, ModuleList::Resolved, m, info.resolved)?;
        check_list(table, ModuleList::References, m, info.references)?;
        check_few(table, MAX_ITEMS, Thing::Export(m, MAX_ITEMS), info.exports)?;
        check_few(table, MAX_ITEMS, Thing::Partial(m, MAX_ITEMS), info.partial)
    }
}

// An entry's sites are not too many.
#[derive(Clone, Copy)]
struct EntrySites;

impl<'t, T: LinkTable<'t>> Check<'t, T> for EntrySites {
    ghost says = { λ _ v e. option_map_or (few_in_entry v.place e) (slice_get v.table.entries e) (Ok tt) };

    fn check(&self, table: &mut T, e: usize) -> Result<(), Fault<T::Place>> {
        let Some(info) = table.entry(e) else {
            return Ok(());
        };
        check_few(table, MAX_ITEMS, Thing::Site(e, MAX_ITEMS), info.sites)
    }
}

// Refuses the first count over its maximum, in the order modules, entries, symbols, then the lists of each.
#[tactic(auto, using(checkparts::proofs::Turns::each_there), unfolding(definitions::specs::Checks::counts_checked))]
pub fn check_counts<'t, T: LinkTable<'t>>(table: &mut T) -> Result<(), Fault<T::Place>>
    ensures answer { result ≡ counts_checked (T.means table.old).place (T.means table.old).table }
    ensures kept { T.means table.new ≡ T.means table.old }
{
    let modules = table.module_count();
    let entries = table.entry_count();
    let symbols = table.symbol_count();
    check_few(table, MAX_MODULES, Thing::Module(MAX_MODULES), modules)?;
    check_few(table, MAX_ENTRIES, Thing::Entry(MAX_ENTRIES), entries)?;
    check_few(table, MAX_SYMBOLS, Thing::Symbol(MAX_SYMBOLS), symbols)?;
    check_each(table, modules, &ModuleLists)?;
    check_each(table, entries, &EntrySites)
}
