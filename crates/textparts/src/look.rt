// Rows and lines by the numbers of a thing: none where the thing is not there.
ghost use Rattle.std.specs.Prelude.{◌≡◌, map};
ghost use Rattle.std.specs.List.{slice_get};
ghost use Rattle.std.specs.Option.{option_map};
ghost use Rattle.lines.specs.Values.{line_value, item_value, number_value, export_value, partial_value, site_value, symbol_value};
ghost use Rattle.tables.specs.declared.thing.Thing.TheVariants.{Item, Export, Partial, Site, Symbol};
ghost use Rattle.texts.specs.Rows.{numbered_by, module_value, entry_value, text_value};
ghost use Rattle.textparts.specs.Places.{letter_of, lines_in, line_in};

use lines::{ExportLine, ItemLine, Line, PartialLine, SiteLine, SymbolLine};
use tables::thing::{ModuleList, Thing};
use texts::{EntryRow, ModuleRow, Numbered, TextRows};

// An item of a list, with the number of its line.
fn item_at<const LETTER: u8>(
    items: &[Numbered<ItemLine<LETTER>>],
    i: usize,
) -> Option<Numbered<u32>>
    ensures { option_map (numbered_by (number_value LETTER)) result
        ≡ slice_get (map (numbered_by (item_value LETTER)) items.now) i }
{
    let item = items.get(i)?;
    Some(Numbered {
        number: item.number,
        line: item.line.number,
    })
}

// An item of a module's list of numbers. The records have the like (`list_in`) over one type of list: here the four lists
// have four types of lines, since the letter is part of a line's type.
fn item_in(row: &ModuleRow, list: ModuleList, i: usize) -> Option<Numbered<u32>>
    ensures { option_map (numbered_by (number_value (letter_of list))) result
        ≡ slice_get (lines_in list (module_value row.now)) i }
{
    match list {
        ModuleList::Loads => item_at(&row.loads, i),
        ModuleList::Dependencies => item_at(&row.dependencies, i),
        ModuleList::Resolved => item_at(&row.resolved, i),
        ModuleList::References => item_at(&row.references, i),
    }
}

pub fn module_row<'r, 't>(rows: &'r TextRows<'t>, m: usize) -> Option<&'r ModuleRow<'t>>
    ensures { option_map (λ row. module_value row.now) result ≡ slice_get (text_value rows.now).modules m }
{
    rows.modules.get(m)
}

pub fn entry_row<'r>(rows: &'r TextRows, e: usize) -> Option<&'r EntryRow>
    ensures { option_map (λ row. entry_value row.now) result ≡ slice_get (text_value rows.now).entries e }
{
    rows.entries.get(e)
}

// The number in the line of an item.
pub fn item_line(rows: &TextRows, list: ModuleList, m: usize, i: usize) -> Option<Numbered<u32>>
    ensures { option_map (numbered_by (number_value (letter_of list))) result
        ≡ line_in (text_value rows.now) (Item list m i) }
{
    item_in(module_row(rows, m)?, list, i)
}

pub fn export_line<'r, 't>(
    rows: &'r TextRows<'t>,
    m: usize,
    i: usize,
) -> Option<&'r Numbered<ExportLine<'t>>>
    ensures { option_map (λ n. numbered_by export_value n.now) result ≡ line_in (text_value rows.now) (Export m i) }
{
    module_row(rows, m)?.exports.get(i)
}

pub fn partial_line<'r, 't>(
    rows: &'r TextRows<'t>,
    m: usize,
    i: usize,
) -> Option<&'r Numbered<PartialLine<'t>>>
    ensures { option_map (λ n. numbered_by partial_value n.now) result
        ≡ line_in (text_value rows.now) (Partial m i) }
{
    module_row(rows, m)?.partial.get(i)
}

pub fn site_line<'r>(rows: &'r TextRows, e: usize, i: usize) -> Option<&'r Numbered<SiteLine>>
    ensures { option_map (λ n. numbered_by site_value n.now) result ≡ line_in (text_value rows.now) (Site e i) }
{
    entry_row(rows, e)?.sites.get(i)
}

pub fn symbol_line<'r>(rows: &'r TextRows, s: usize) -> Option<&'r Numbered<SymbolLine>>
    ensures { option_map (λ n. numbered_by symbol_value n.now) result ≡ line_in (text_value rows.now) (Symbol s) }
{
    rows.symbols.get(s)
}

// The line of an item, which its list gives the letter.
fn line_of_item<'t>(list: ModuleList, item: Numbered<u32>) -> Numbered<Line<'t>>
    ensures { numbered_by line_value result ≡ numbered_by (number_value (letter_of list)) item }
{
    let number = item.line;
    let line = match list {
        ModuleList::Loads => Line::Load(ItemLine { number }),
        ModuleList::Dependencies => Line::Dependency(ItemLine { number }),
        ModuleList::Resolved => Line::Resolved(ItemLine { number }),
        ModuleList::References => Line::Reference(ItemLine { number }),
    };
    Numbered {
        number: item.number,
        line,
    }
}

// A line with its number.
fn numbered<'t>(number: usize, line: Line<'t>) -> Numbered<Line<'t>>
    ensures { result ≡ record { number = number; line = line.entry } }
{
    Numbered { number, line }
}

// The line that a thing stands in, with its number, or none where the thing is not there.
pub fn line_of<'t>(rows: &TextRows<'t>, thing: Thing) -> Option<Numbered<Line<'t>>>
    ensures { option_map (numbered_by line_value) result ≡ line_in (text_value rows.now) thing }
{
    match thing {
        Thing::Header => Some(numbered(rows.head.number, Line::Table(rows.head.line))),
        Thing::Module(m) => {
            module_row(rows, m).map(|row| numbered(row.head.number, Line::Module(row.head.line)))
        }
        Thing::Item(list, m, i) => item_line(rows, list, m, i).map(|n| line_of_item(list, n)),
        Thing::Export(m, i) => {
            export_line(rows, m, i).map(|n| numbered(n.number, Line::Export(n.line)))
        }
        Thing::Partial(m, i) => {
            partial_line(rows, m, i).map(|n| numbered(n.number, Line::Partial(n.line)))
        }
        Thing::Entry(e) => {
            entry_row(rows, e).map(|row| numbered(row.head.number, Line::Entry(row.head.line)))
        }
        Thing::Site(e, i) => site_line(rows, e, i).map(|n| numbered(n.number, Line::Site(n.line))),
        Thing::Symbol(s) => symbol_line(rows, s).map(|n| numbered(n.number, Line::Symbol(n.line))),
    }
}
