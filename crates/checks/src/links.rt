// Refuses links in a circle.
ghost use Rattle.std.specs.Prelude.{◌≡◌};
ghost use Rattle.tables.specs.View.{view};
ghost use Rattle.definitions.specs.Checks.{links_checked};
ghost use Rattle.checks.specs.Linked.{chain_checked_within};

use asks::ends_within;
use checkparts::each::{Check, check_each};
use checkparts::faults::check_that;
use tables::fault::{Cause, Fault};
use tables::table::LinkTable;
use tables::thing::{Field, Thing};

// A symbol's chain of links comes to its end within so many links. Their number is a field: a question for it at each symbol
// would be one more for each.
#[derive(Clone, Copy)]
struct Chains {
    links: usize,
}

impl<'t, T: LinkTable<'t>> Check<'t, T> for Chains {
    ghost says = { λ c v s. chain_checked_within v.place (view v.table) c.links s };

    fn check(&self, table: &mut T, s: usize) -> Result<(), Fault<T::Place>> {
        let ends = ends_within(table, self.links, s);
        let cause = Cause::EndlessLinks { symbol: s };
        check_that(table, ends, cause, Thing::Symbol(s), Field::Whole)
    }
}

// Refuses the lowest symbol whose chain of links has no end.
pub fn check_links<'t, T: LinkTable<'t>>(table: &mut T) -> Result<(), Fault<T::Place>>
    ensures answer { result ≡ links_checked (T.means table.old).place (T.means table.old).table }
    ensures kept { T.means table.new ≡ T.means table.old }
{
    let symbols = table.symbol_count();
    check_each(table, symbols, &Chains { links: symbols })
}
