// A fault with its place, and the checks of one number.
// Thing and field stay two parameters: a fault and `place_of` have them as two, and a pair would only be taken apart again.
ghost use Rattle.std.specs.Prelude.{◌≡◌};
ghost use Rattle.definitions.specs.Checks.{fault_at, unless, few, below, at_most, below_if};

use tables::fault::{Cause, Fault};
use tables::table::LinkTable;
use tables::thing::{Field, Thing};

// The fault of a thing's field, with its place in the table. A check that passes makes none.
#[cold]
#[inline(never)]
pub fn fault_at<'t, T: LinkTable<'t>>(
    table: &mut T,
    cause: Cause,
    thing: Thing,
    field: Field,
) -> Fault<T::Place>
    ensures answer { result ≡ fault_at (T.means table.old).place cause thing field }
    ensures kept { T.means table.new ≡ T.means table.old }
{
    let place = table.place_of(thing, field);
    Fault {
        cause,
        thing: Some(thing),
        field,
        place,
    }
}

// Refuses what does not hold, with this cause. Cause and thing are made where it is known to be refused, since it is inlined.
#[inline(always)]
pub fn check_that<'t, T: LinkTable<'t>>(
    table: &mut T,
    holds: bool,
    cause: Cause,
    thing: Thing,
    field: Field,
) -> Result<(), Fault<T::Place>>
    ensures answer { result ≡ unless holds (fault_at (T.means table.old).place cause thing field) }
    ensures kept { T.means table.new ≡ T.means table.old }
{
    if holds {
        return Ok(());
    }
    Err(fault_at(table, cause, thing, field))
}

// Refuses a count `n` of more than `most`: the fault names `thing`, the first too many.
#[inline(always)]
pub fn check_few<'t, T: LinkTable<'t>>(
    table: &mut T,
    most: usize,
    thing: Thing,
    n: usize,
) -> Result<(), Fault<T::Place>>
    ensures answer { result ≡ few (T.means table.old).place most thing n }
    ensures kept { T.means table.new ≡ T.means table.old }
{
    let cause = Cause::TooMany { count: n };
    check_that(table, n <= most, cause, thing, Field::Whole)
}

// Refuses a number that names none of `n` things.
#[inline(always)]
pub fn check_below<'t, T: LinkTable<'t>>(
    table: &mut T,
    n: usize,
    thing: Thing,
    field: Field,
    v: u32,
) -> Result<(), Fault<T::Place>>
    ensures answer { result ≡ below (T.means table.old).place n thing field v }
    ensures kept { T.means table.new ≡ T.means table.old }
{
    check_that(table, (v as usize) < n, Cause::NamesNothing, thing, field)
}

// Refuses a number over `n`, as a sum of flags may be.
#[inline(always)]
pub fn check_at_most<'t, T: LinkTable<'t>>(
    table: &mut T,
    n: u32,
    thing: Thing,
    field: Field,
    v: u32,
) -> Result<(), Fault<T::Place>>
    ensures answer { result ≡ at_most (T.means table.old).place n thing field v }
    ensures kept { T.means table.new ≡ T.means table.old }
{
    check_that(table, v <= n, Cause::NamesNothing, thing, field)
}

// Refuses a number that is there and names none of `n` things.
#[inline(always)]
pub fn check_below_if<'t, T: LinkTable<'t>>(
    table: &mut T,
    n: usize,
    thing: Thing,
    field: Field,
    number: Option<u32>,
) -> Result<(), Fault<T::Place>>
    ensures answer { result ≡ below_if (T.means table.old).place n thing field number }
    ensures kept { T.means table.new ≡ T.means table.old }
{
    match number {
        Some(v) => check_below(table, n, thing, field, v),
        None => Ok(()),
    }
}
