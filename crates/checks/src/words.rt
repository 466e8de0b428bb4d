// Refuses too few words.
ghost use Rattle.std.specs.Prelude.{◌≡◌, ◌≤◌, length};
ghost use Rattle.definitions.specs.Checks.{words_checked};

use definitions::size::Size;
use tables::fault::{Cause, Fault};
use tables::table::LinkTable;

// Refuses `words` under what a plan over the table needs.
#[tactic(auto, unfolding(definitions::specs::Checks::words_checked))]
pub fn check_words<'t, T: LinkTable<'t>>(table: &mut T, words: usize) -> Result<(), Fault<T::Place>>
    requires modules { length (T.means table.old).table.modules ≤ 4096 }
    requires entries { length (T.means table.old).table.entries ≤ 256 }
    ensures answer { result ≡ words_checked words (T.means table.old).table }
    ensures kept { T.means table.new ≡ T.means table.old }
{
    let modules = table.module_count();
    let entries = table.entry_count();
    let needed = Size { modules, entries }.words_needed();
    if needed <= words {
        return Ok(());
    }
    Err(Fault::from(Cause::TooFewWords { needed }))
}
