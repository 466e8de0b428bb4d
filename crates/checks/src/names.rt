// Refuses an export whose name an earlier export of its module has.
// Names are compared in pairs: there is no heap for a set of them, and a module has at most 4096 exports.
ghost use Rattle.std.specs.Prelude.{◌≡◌, Ok, []};
ghost use Rattle.std.specs.List.{slice_get};
ghost use Rattle.std.specs.Option.{option_map_or};
ghost use Rattle.tables.specs.Asked.{exports_of, export_at};
ghost use Rattle.definitions.specs.Checks.{names_among, names_checked};
ghost use Rattle.checks.specs.Named.{other_name, new_name};

use checkparts::each::{Check, check_each};
use checkparts::faults::check_that;
use tables::fault::{Cause, Fault};
use tables::table::LinkTable;
use tables::thing::{Field, Thing};

// An export of module `m` has another name than export `i`, whose name is given.
#[derive(Clone, Copy)]
struct OtherName<'t> {
    m: usize,
    i: usize,
    name: &'t [u8],
}

impl<'t, T: LinkTable<'t>> Check<'t, T> for OtherName<'t> {
    ghost says = { λ c v j.
        option_map_or (other_name v.place c.m c.i c.name.now) (export_at v.table c.m j) (Ok tt) };

    #[tactic(auto, using(crate::proofs::Scans::same_is))]
    fn check(&self, table: &mut T, j: usize) -> Result<(), Fault<T::Place>> {
        let Some(earlier) = table.export(self.m, j) else {
            return Ok(());
        };
        let differs = earlier.name != self.name;
        let thing = Thing::Export(self.m, self.i);
        check_that(table, differs, Cause::NameTwice, thing, Field::Name)
    }
}

// The name of an export of module `m` is new there: no earlier export has it.
#[derive(Clone, Copy)]
struct NewName {
    m: usize,
}

impl<'t, T: LinkTable<'t>> Check<'t, T> for NewName {
    ghost says = { λ c v i.
        option_map_or (new_name v.place (exports_of v.table c.m) c.m i) (export_at v.table c.m i) (Ok tt) };

    fn check(&self, table: &mut T, i: usize) -> Result<(), Fault<T::Place>> {
        let m = self.m;
        let Some(export) = table.export(m, i) else {
            return Ok(());
        };
        let name = export.name;
        check_each(table, i, &OtherName { m, i, name })
    }
}

// The names of a module's exports are new, each in its turn.
#[derive(Clone, Copy)]
struct ModuleNames;

impl<'t, T: LinkTable<'t>> Check<'t, T> for ModuleNames {
    ghost says = { λ _ v m.
        option_map_or (λ x. names_among v.place [] m 0 x.exports) (slice_get v.table.modules m) (Ok tt) };

    fn check(&self, table: &mut T, m: usize) -> Result<(), Fault<T::Place>> {
        let Some(info) = table.module(m) else {
            return Ok(());
        };
        check_each(table, info.exports, &NewName { m })
    }
}

// Refuses the first export whose name an earlier export of its module has.
#[tactic(auto, using(checkparts::proofs::Turns::each_there), unfolding(definitions::specs::Checks::names_checked))]
pub fn check_names<'t, T: LinkTable<'t>>(table: &mut T) -> Result<(), Fault<T::Place>>
    ensures answer { result ≡ names_checked (T.means table.old).place (T.means table.old).table }
    ensures kept { T.means table.new ≡ T.means table.old }
{
    let modules = table.module_count();
    check_each(table, modules, &ModuleNames)
}
