// The rows of a text, in the order of the form.
ghost use Rattle.std.specs.Prelude.{◌≡◌, map};
ghost use Rattle.texts.specs.Form.{LineAt, ModuleLines, EntryLines, At, Step, one, times, module_lines, entry_lines};
ghost use Rattle.texts.specs.Rows.{numbered_by, module_value, entry_value};
ghost use Rattle.texts.specs.Exact.{here, Exactly};

use crate::reader::Reader;
use crate::rows::{EntryRow, ModuleRow, Numbered};
use crate::unreadable::Unreadable;
use lines::LineKind;

// What the form has a number of, one after another.
pub(crate) trait Row<'t>: Drop {
    // what a row stands for
    ghost Lines: { Type 0 };

    ghost value: { Self → Lines };

    // how the form reads it
    ghost step: { At → Step Lines };

    fn read(r: &mut Reader<'t>) -> Result<Self, Unreadable>
        ensures { Exactly value result (here r.new) (step (here r.old)) };
}

// A line alone.
impl<'t, L: LineKind<'t>> Row<'t> for Numbered<L> {
    ghost Lines = { LineAt };

    ghost value = { numbered_by L.value };

    ghost step = { one L.letter };

    fn read(r: &mut Reader<'t>) -> Result<Numbered<L>, Unreadable> {
        r.read_one()
    }
}

// A module, by its M line and its lists.
impl<'t> Row<'t> for ModuleRow<'t> {
    ghost Lines = { ModuleLines };

    ghost value = { module_value };

    ghost step = { module_lines };

    fn read(r: &mut Reader<'t>) -> Result<ModuleRow<'t>, Unreadable>
        ensures { Exactly module_value result (here r.new) (module_lines (here r.old)) }
    {
        let head = r.read_one()?;
        let loads = r.read_many()?;
        let dependencies = r.read_many()?;
        let resolved = r.read_many()?;
        let references = r.read_many()?;
        let exports = r.read_many()?;
        let partial = r.read_many()?;
        Ok(ModuleRow {
            head,
            loads,
            dependencies,
            resolved,
            references,
            exports,
            partial,
        })
    }
}

// An entry, by its E line and its sites.
impl<'t> Row<'t> for EntryRow {
    ghost Lines = { EntryLines };

    ghost value = { entry_value };

    ghost step = { entry_lines };

    fn read(r: &mut Reader<'t>) -> Result<EntryRow, Unreadable> {
        let head = r.read_one()?;
        let sites = r.read_many()?;
        Ok(EntryRow { head, sites })
    }
}

// As many rows as said.
#[tactic(auto, using(crate::proofs::Times::reading_times))]
pub(crate) fn read_times<'t, R: Row<'t>>(r: &mut Reader<'t>, n: u32) -> Result<Vec<R>, Unreadable>
    ensures { Exactly (λ w. map R.value w.items) result (here r.new) (times R.step n (here r.old)) }
{
    let mut rows = Vec::new(r.heap);
    for _ in 0..n {
        rows.push(R::read(r)?)?;
    }
    Ok(rows)
}
