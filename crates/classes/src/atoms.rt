// Modules that the same entries depend on form an atom. The atoms are numbered by their least modules.
ghost use Rattle.std.specs.Prelude.{length};
ghost use Rattle.tables.specs.View.{View};
ghost use Rattle.classes.specs.Atoms.{AtomRoom, SaysBits, Grouped, Around};

use crate::{RowPlaces, TooManyClasses, copy_first_rows, number_rows};

const MOST: usize = 256;

// Where, in the words, the rows of the modules stand, with the numbers of their atoms and the least module of each atom, and
// where the rows of the atoms begin.
#[derive(Clone, Copy, Debug, PartialEq, Eq)]
pub struct AtomPlaces {
    pub modules: RowPlaces,
    pub atoms: usize,
}

// Numbers the modules by their atoms: a module of atom a has the number a + 1, and a module without entries 0. Fills the
// row of each atom with the entries of its modules. Answers how many atoms there are; the error, where they are more than
// 256, has the least module of atom 256.
pub fn group_modules_by_dependent_entries(
    words: &mut [u64],
    at: AtomPlaces,
) -> Result<usize, TooManyClasses>
    requires { AtomRoom at (length words.old) }
    ensures grouped { (t : View) → SaysBits t at.modules words.old → Grouped t at words.new result }
    ensures around { Around at words.old words.new }
{
    let count = number_rows(words, at.modules, MOST)?;
    copy_first_rows(words, at.modules, count, at.atoms);
    Ok(count)
}
