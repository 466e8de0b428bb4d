// A text of the form, read in one pass.
ghost use Rattle.std.specs.Prelude.{◌≡◌};
ghost use Rattle.texts.specs.Form.{parsed};
ghost use Rattle.texts.specs.Rows.{text_value, Opens};

use crate::parse::read_times;
use crate::reader::Reader;
use crate::rows::{Numbered, TextRows};
use crate::unreadable::Unreadable;
use lines::TableLine;
use std::alloc::Global;

// The lines of a text by module and entry, or the first wrong or missing line and its column. Heap and text are two
// parameters: the text is only lent, and what is read is kept on the heap.
pub fn read_text<'t>(heap: Global, text: &'t [u8]) -> Result<TextRows<'t>, Unreadable>
    ensures { Opens text_value result (parsed text.now) }
{
    let mut r = Reader::new(heap, text);
    let head: Numbered<TableLine> = r.read_one()?;
    let modules = read_times(&mut r, head.line.modules)?;
    let entries = read_times(&mut r, head.line.entries)?;
    let symbols = read_times(&mut r, head.line.symbols)?;
    if !r.is_spent() {
        return Err(Unreadable::at(r.line, 1));
    }
    Ok(TextRows {
        head,
        modules,
        entries,
        symbols,
    })
}
