// Refuses numbers that name nothing, and wraps and sums of flags that are too large.
// `kept` stands in each contract: a question may change its table, and no type says that the meaning stays.
#![tactic(auto)]

ghost use Rattle.std.specs.Prelude.{◌≡◌, Some, Ok};
ghost use Rattle.std.specs.List.{slice_get};
ghost use Rattle.std.specs.Option.{option_map_or};
ghost use Rattle.tables.specs.Asked.{table_module, table_symbol};
ghost use Rattle.definitions.specs.Checks.{module_checked, entry_checked, symbol_checked, numbers_checked};
ghost use Rattle.checknumbers.specs.Numbers.{fields_checked, lists_checked};

use checkparts::each::{Check, check_each};
use checkparts::faults::{check_at_most, check_below, check_below_if};
use checkparts::lists::{check_exports, check_items, check_sites};
use tables::fault::Fault;
use tables::parts::ModuleInfo;
use tables::table::LinkTable;
use tables::thing::{Field, ModuleList, Thing};

// The largest sum of a module's flags.
const MODULE_FLAGS: u32 = 255;

// The largest wrap.
const WRAP: u32 = 2;

// The largest sum of an entry's flags.
const ENTRY_FLAGS: u32 = 15;

// The largest sum of a symbol's flags.
const SYMBOL_FLAGS: u32 = 1;

// So many modules and symbols, which numbers are to name. Each check below is a type of its own around them: a check is its type.
#[derive(Clone, Copy)]
struct Counts {
    modules: usize,
    symbols: usize,
}

// The fields of module `m`.
fn check_fields<'t, T: LinkTable<'t>>(
    table: &mut T,
    symbols: usize,
    m: usize,
    info: ModuleInfo,
) -> Result<(), Fault<T::Place>>
    ensures answer { result ≡ fields_checked (T.means table.old).place symbols m info }
    ensures kept { T.means table.new ≡ T.means table.old }
{
    let thing = Thing::Module(m);
    check_at_most(table, MODULE_FLAGS, thing, Field::Flags, info.flags)?;
    check_at_most(table, WRAP, thing, Field::Wrap, info.wrap)?;
    check_below_if(table, symbols, thing, Field::Namespace, info.namespace)?;
    check_below_if(table, symbols, thing, Field::Wrapper, info.wrapper)
}

// The lists of module `m`.
fn check_lists<'t, T: LinkTable<'t>>(
    table: &mut T,
    counts: Counts,
    m: usize,
    info: ModuleInfo,
) -> Result<(), Fault<T::Place>>
    requires { Some info ≡ table_module (T.means table.old).table m }
    ensures answer { let v = T.means table.old in
        result ≡ lists_checked v.place counts.modules counts.symbols m v.table }
    ensures kept { T.means table.new ≡ T.means table.old }
{
    let Counts { modules, symbols } = counts;
    check_items(table, modules, ModuleList::Loads, m, info.loads)?;
    check_items(
        table,
        modules,
        ModuleList::Dependencies,
        m,
        info.dependencies,
    )?;
    check_items(table, modules, ModuleList::Resolved, m, info.resolved)?;
    check_items(table, symbols, ModuleList::References, m, info.references)?;
    check_exports(table, symbols, m, info.exports)
}

// A module's numbers: those of its fields, then those of its lists.
#[derive(Clone, Copy)]
struct Modules(Counts);

impl<'t, T: LinkTable<'t>> Check<'t, T> for Modules {
    ghost says = { λ c v m.
        option_map_or (module_checked v.place c.0.modules c.0.symbols m) (slice_get v.table.modules m) (Ok tt) };

    fn check(&self, table: &mut T, m: usize) -> Result<(), Fault<T::Place>> {
        let Some(info) = table.module(m) else {
            return Ok(());
        };
        check_fields(table, self.0.symbols, m, info)?;
        check_lists(table, self.0, m, info)
    }
}

// An entry's numbers: those of its fields, then those of its sites.
#[derive(Clone, Copy)]
struct Entries(Counts);

impl<'t, T: LinkTable<'t>> Check<'t, T> for Entries {
    ghost says = { λ c v e.
        option_map_or (entry_checked v.place c.0.modules e) (slice_get v.table.entries e) (Ok tt) };

    fn check(&self, table: &mut T, e: usize) -> Result<(), Fault<T::Place>> {
        let Some(info) = table.entry(e) else {
            return Ok(());
        };
        let modules = self.0.modules;
        let thing = Thing::Entry(e);
        check_below(table, modules, thing, Field::Root, info.root)?;
        check_at_most(table, ENTRY_FLAGS, thing, Field::Flags, info.flags)?;
        check_sites(table, modules, e, info.sites)
    }
}

// A symbol's numbers.
#[derive(Clone, Copy)]
struct Symbols(Counts);

impl<'t, T: LinkTable<'t>> Check<'t, T> for Symbols {
    ghost says = { λ c v s.
        option_map_or (symbol_checked v.place c.0.modules c.0.symbols s) (table_symbol v.table s) (Ok tt) };

    fn check(&self, table: &mut T, s: usize) -> Result<(), Fault<T::Place>> {
        let Some(symbol) = table.symbol(s) else {
            return Ok(());
        };
        let Counts { modules, symbols } = self.0;
        let thing = Thing::Symbol(s);
        check_below(table, modules, thing, Field::Owner, symbol.owner)?;
        check_below(table, symbols, thing, Field::Link, symbol.link)?;
        check_below_if(table, symbols, thing, Field::Alias, symbol.alias)?;
        check_at_most(table, SYMBOL_FLAGS, thing, Field::Flags, symbol.flags)
    }
}

// Refuses the first number that names nothing, in the order runtime, modules, entries, symbols.
#[tactic(auto, using(checkparts::proofs::Turns::each_there), unfolding(definitions::specs::Checks::numbers_checked))]
pub fn check_numbers<'t, T: LinkTable<'t>>(table: &mut T) -> Result<(), Fault<T::Place>>
    ensures answer { result ≡ numbers_checked (T.means table.old).place (T.means table.old).table }
    ensures kept { T.means table.new ≡ T.means table.old }
{
    let modules = table.module_count();
    let entries = table.entry_count();
    let symbols = table.symbol_count();
    let runtime = table.runtime();
    let counts = Counts { modules, symbols };
    check_below_if(table, modules, Thing::Header, Field::Runtime, runtime)?;
    check_each(table, modules, &Modules(counts))?;
    check_each(table, entries, &Entries(counts))?;
    check_each(table, symbols, &Symbols(counts))
}
