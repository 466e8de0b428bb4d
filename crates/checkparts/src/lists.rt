// Refuses items, exports and sites that name nothing.
// `count` is a parameter: the caller has just been told it, and asking again would be one more question for each list.
ghost use Rattle.std.specs.Prelude.{◌≡◌, Ok, length};
ghost use Rattle.std.specs.Option.{option_map_or};
ghost use Rattle.tables.specs.Asked.{items_of, exports_of, sites_of, item_at, export_at, site_at};
ghost use Rattle.definitions.specs.Checks.{each, export_checked, site_checked};
ghost use Rattle.checkparts.specs.Each.{item_checked};

use crate::each::{Check, check_each};
use crate::faults::{check_at_most, check_below, check_below_if};
use tables::fault::Fault;
use tables::table::LinkTable;
use tables::thing::{Field, ModuleList, Thing};

// The largest sum of a site's flags.
const SITE_FLAGS: u32 = 7;

// Each item of a list of module `m` names one of `n` things.
#[derive(Clone, Copy)]
struct Items {
    n: usize,
    list: ModuleList,
    m: usize,
}

impl<'t, T: LinkTable<'t>> Check<'t, T> for Items {
    ghost says = { λ c v i.
        option_map_or (item_checked v.place c.n c.list c.m i) (item_at v.table c.list c.m i) (Ok tt) };

    fn check(&self, table: &mut T, i: usize) -> Result<(), Fault<T::Place>> {
        let Some(v) = table.item(self.list, self.m, i) else {
            return Ok(());
        };
        let thing = Thing::Item(self.list, self.m, i);
        check_below(table, self.n, thing, Field::Number, v)
    }
}

// Each of the `count` items of a list of module `m` names one of `n` things.
#[tactic(auto, using(crate::proofs::Turns::each_there))]
pub fn check_items<'t, T: LinkTable<'t>>(
    table: &mut T,
    n: usize,
    list: ModuleList,
    m: usize,
    count: usize,
) -> Result<(), Fault<T::Place>>
    requires { count ≡ length (items_of (T.means table.old).table list m) }
    ensures answer { let v = T.means table.old in
        result ≡ each (item_checked v.place n list m) 0 (items_of v.table list m) }
    ensures kept { T.means table.new ≡ T.means table.old }
{
    check_each(table, count, &Items { n, list, m })
}

// Each export of module `m` names one of `symbols`.
#[derive(Clone, Copy)]
struct Exports {
    symbols: usize,
    m: usize,
}

impl<'t, T: LinkTable<'t>> Check<'t, T> for Exports {
    ghost says = { λ c v i.
        option_map_or (export_checked v.place c.symbols c.m i) (export_at v.table c.m i) (Ok tt) };

    fn check(&self, table: &mut T, i: usize) -> Result<(), Fault<T::Place>> {
        let Some(export) = table.export(self.m, i) else {
            return Ok(());
        };
        let thing = Thing::Export(self.m, i);
        check_below(
            table,
            self.symbols,
            thing,
            Field::ExportedSymbol,
            export.symbol,
        )
    }
}

// Each of the `count` exports of module `m` names one of `symbols`.
#[tactic(auto, using(crate::proofs::Turns::each_there))]
pub fn check_exports<'t, T: LinkTable<'t>>(
    table: &mut T,
    symbols: usize,
    m: usize,
    count: usize,
) -> Result<(), Fault<T::Place>>
    requires { count ≡ length (exports_of (T.means table.old).table m) }
    ensures answer { let v = T.means table.old in
        result ≡ each (export_checked v.place symbols m) 0 (exports_of v.table m) }
    ensures kept { T.means table.new ≡ T.means table.old }
{
    check_each(table, count, &Exports { symbols, m })
}

// Each site of entry `e` names its modules among `modules`.
#[derive(Clone, Copy)]
struct Sites {
    modules: usize,
    e: usize,
}

impl<'t, T: LinkTable<'t>> Check<'t, T> for Sites {
    ghost says = { λ c v i.
        option_map_or (site_checked v.place c.modules c.e i) (site_at v.table c.e i) (Ok tt) };

    fn check(&self, table: &mut T, i: usize) -> Result<(), Fault<T::Place>> {
        let Some(site) = table.site(self.e, i) else {
            return Ok(());
        };
        let thing = Thing::Site(self.e, i);
        check_below(table, self.modules, thing, Field::Importer, site.importer)?;
        check_below_if(table, self.modules, thing, Field::Target, site.target)?;
        check_at_most(table, SITE_FLAGS, thing, Field::Flags, site.flags)
    }
}

// Each of the `count` sites of entry `e` names its modules among `modules`.
#[tactic(auto, using(crate::proofs::Turns::each_there))]
pub fn check_sites<'t, T: LinkTable<'t>>(
    table: &mut T,
    modules: usize,
    e: usize,
    count: usize,
) -> Result<(), Fault<T::Place>>
    requires { count ≡ length (sites_of (T.means table.old).table e) }
    ensures answer { let v = T.means table.old in
        result ≡ each (site_checked v.place modules e) 0 (sites_of v.table e) }
    ensures kept { T.means table.new ≡ T.means table.old }
{
    check_each(table, count, &Sites { modules, e })
}
