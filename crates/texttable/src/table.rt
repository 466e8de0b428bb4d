// The table over a text.
#![tactic(auto, unfolding(crate::specs::Texts::meaning_of))]

ghost use Rattle.std.specs.Prelude.{◌≡◌, IfOk};
ghost use Rattle.texts.specs.Rows.{text_value};
ghost use Rattle.texttable.specs.Texts.{empty_lines, meaning_of, refused_at, checked, Opened};

use lines::TableLine;
use std::alloc::{AllocError, Global};
use tables::fault::{Cause, Fault};
use tables::parts::{EntryInfo, Export, ModuleInfo, Site, Symbol};
use tables::table::LinkTable;
use tables::thing::{Field, ModuleList, Thing};
use textparts::{
    entry_info, entry_row, export_line, export_of, item_line, line_column, line_of, module_info,
    module_row, partial_line, site_line, site_of, symbol_line, symbol_of,
};
use texts::{Numbered, TextPlace, TextRows, Unreadable, read_text};

// The rows of a text, and the place at which it is refused. The rows of a text that is refused are empty:
// two fields and not one or the other, since the empty table answers each question too, and its header has a place.
#[derive(Drop)]
pub struct TextTable<'t> {
    rows: TextRows<'t>,
    refused: Option<TextPlace>,
}

// A T line that says nothing, and no other line.
fn no_rows<'t>(heap: Global) -> TextRows<'t>
    ensures { text_value result ≡ empty_lines }
{
    let line = TableLine {
        modules: 0,
        entries: 0,
        symbols: 0,
        runtime: None,
        strict: false,
    };
    TextRows {
        head: Numbered { number: 1, line },
        modules: Vec::new(heap),
        entries: Vec::new(heap),
        symbols: Vec::new(heap),
    }
}

impl<'t> TextTable<'t> {
    // Checks a text and opens it, in one pass. Over a text that is refused the table is empty.
    pub fn open(heap: Global, text: &'t [u8]) -> Result<TextTable<'t>, AllocError>
        ensures { IfOk result (λ t. Opened text.now t) }
    {
        match read_text(heap, text) {
            Ok(rows) => Ok(TextTable {
                rows,
                refused: None,
            }),
            Err(Unreadable::Memory) => Err(AllocError),
            Err(Unreadable::Form(place)) => Ok(TextTable {
                rows: no_rows(heap),
                refused: Some(place),
            }),
        }
    }

    // The first fault of the text that was opened.
    pub fn check(&self) -> Result<(), Fault<TextPlace>>
        ensures { result ≡ checked (refused_at self.now) }
    {
        match self.refused {
            None => Ok(()),
            Some(place) => Err(Fault {
                cause: Cause::BrokenForm {
                    line: place.line,
                    column: place.column,
                },
                thing: None,
                field: Field::Whole,
                place: Some(place),
            }),
        }
    }
}

// `|row| module_info(row)` and the like: a function of another crate, passed by its name, gets no proof.
impl<'t> LinkTable<'t> for TextTable<'t> {
    type Place = TextPlace;

    ghost means = { meaning_of };

    fn module_count(&mut self) -> usize {
        self.rows.modules.len()
    }

    fn entry_count(&mut self) -> usize {
        self.rows.entries.len()
    }

    fn symbol_count(&mut self) -> usize {
        self.rows.symbols.len()
    }

    fn runtime(&mut self) -> Option<u32> {
        self.rows.head.line.runtime
    }

    fn strict(&mut self) -> bool {
        self.rows.head.line.strict
    }

    fn module(&mut self, m: usize) -> Option<ModuleInfo> {
        module_row(&self.rows, m).map(|row| module_info(row))
    }

    fn item(&mut self, list: ModuleList, m: usize, i: usize) -> Option<u32> {
        item_line(&self.rows, list, m, i).map(|n| n.line)
    }

    fn export(&mut self, m: usize, i: usize) -> Option<Export<'t>> {
        export_line(&self.rows, m, i).map(|n| export_of(*n))
    }

    fn partial(&mut self, m: usize, i: usize) -> Option<&'t [u8]> {
        partial_line(&self.rows, m, i).map(|n| n.line.name)
    }

    fn entry(&mut self, e: usize) -> Option<EntryInfo> {
        entry_row(&self.rows, e).map(|row| entry_info(row))
    }

    fn site(&mut self, e: usize, i: usize) -> Option<Site> {
        site_line(&self.rows, e, i).map(|n| site_of(*n))
    }

    fn symbol(&mut self, s: usize) -> Option<Symbol> {
        symbol_line(&self.rows, s).map(|n| symbol_of(*n))
    }

    fn place_of(&mut self, thing: Thing, field: Field) -> Option<TextPlace> {
        line_of(&self.rows, thing).map(|n| TextPlace {
            line: n.number,
            column: line_column(thing, field),
        })
    }
}
