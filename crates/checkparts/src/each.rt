// A check of each of so many things of a table, by number.
ghost use Rattle.std.specs.Prelude.{◌≡◌, ℕ};
ghost use Rattle.tables.specs.Value.{Meaning};
ghost use Rattle.definitions.specs.Checks.{Checked};
ghost use Rattle.checkparts.specs.Each.{each_below};

use tables::fault::Fault;
use tables::table::LinkTable;

// A check of a thing by its number, as of an item of a list.
// No closure: one whose type names `T::Place`, or under a bound whose lifetime only `T` fixes, is not covered.
// Each impl asks its own question: a method for it, with its type and its meaning, is longer than the `let .. else`.
pub trait Check<'t, T: LinkTable<'t>> {
    // the outcome for a thing of a table that means this
    ghost says: { Self → Meaning T.Place → ℕ → Checked T.Place };

    fn check(&self, table: &mut T, i: usize) -> Result<(), Fault<T::Place>>
        ensures answer { result ≡ says self.now (T.means table.old) i }
        ensures kept { T.means table.new ≡ T.means table.old };
}

// Checks the things below `count`, and gives the first fault.
#[tactic(auto, using(crate::proofs::Turns::again, crate::proofs::Turns::stop))]
pub fn check_each<'t, T: LinkTable<'t>, C: Check<'t, T>>(
    table: &mut T,
    count: usize,
    one: &C,
) -> Result<(), Fault<T::Place>>
    ensures answer { result ≡ each_below (C.says one.now (T.means table.old)) 0 count }
    ensures kept { T.means table.new ≡ T.means table.old }
{
    for i in 0..count {
        one.check(table, i)?;
    }
    Ok(())
}
