// A line of a text, without the byte 10 that ends it. Each reader gives the line, or the wrong column.
ghost use Rattle.std.specs.Prelude.{◌≡◌, ◌∷◌};
ghost use Rattle.lines.specs.Field.{read_by};
ghost use Rattle.lines.specs.Lines.{line_of, table_line, module_line, number_line, export_line};
ghost use Rattle.lines.specs.Lines.{partial_line, entry_line, site_line, symbol_line};
ghost use Rattle.lines.specs.Values.{line_value, item_value};

use crate::field::{read_bit, read_end, read_name, read_number, read_optional};
use crate::kinds::{
    DependencyLine, EntryLine, ExportLine, ItemLine, LoadLine, ModuleLine, PartialLine,
    ReferenceLine, ResolvedLine, SiteLine, SymbolLine, TableLine,
};
use crate::wrong::WrongColumn;

#[derive(Debug, Clone, Copy, PartialEq, Eq)]
pub enum Line<'t> {
    Table(TableLine),
    Module(ModuleLine),
    Load(LoadLine),
    Dependency(DependencyLine),
    Resolved(ResolvedLine),
    Reference(ReferenceLine),
    Export(ExportLine<'t>),
    Partial(PartialLine<'t>),
    Entry(EntryLine),
    Site(SiteLine),
    Symbol(SymbolLine),
}

// Each kind has fields of its own: what the readers share is that they read one field after another.
fn read_table<'t>(l: &'t [u8]) -> Result<Line<'t>, WrongColumn>
    ensures { read_by line_value result ≡ table_line l.now }
{
    let modules = read_number(l, 0)?;
    let entries = read_number(l, 6)?;
    let symbols = read_number(l, 12)?;
    let runtime = read_optional(l, 18)?;
    let strict = read_bit(l, 24)?;
    read_end(l, 30)?;
    Ok(Line::Table(TableLine {
        modules,
        entries,
        symbols,
        runtime,
        strict,
    }))
}

fn read_module<'t>(l: &'t [u8]) -> Result<Line<'t>, WrongColumn>
    ensures { read_by line_value result ≡ module_line l.now }
{
    let flags = read_number(l, 0)?;
    let namespace = read_optional(l, 6)?;
    let wrapper = read_optional(l, 12)?;
    let wrap = read_number(l, 18)?;
    read_end(l, 24)?;
    Ok(Line::Module(ModuleLine {
        flags,
        namespace,
        wrapper,
        wrap,
    }))
}

// An L, D, R or U line.
fn read_item<const LETTER: u8>(l: &[u8]) -> Result<ItemLine<LETTER>, WrongColumn>
    ensures { read_by (item_value LETTER) result ≡ number_line LETTER l.now }
{
    let number = read_number(l, 0)?;
    read_end(l, 6)?;
    Ok(ItemLine { number })
}

fn read_export<'t>(l: &'t [u8]) -> Result<Line<'t>, WrongColumn>
    ensures { read_by line_value result ≡ export_line l.now }
{
    let symbol = read_number(l, 0)?;
    let commonjs = read_bit(l, 6)?;
    let name = read_name(l, 12)?;
    Ok(Line::Export(ExportLine {
        symbol,
        commonjs,
        name,
    }))
}

fn read_partial<'t>(l: &'t [u8]) -> Result<Line<'t>, WrongColumn>
    ensures { read_by line_value result ≡ partial_line l.now }
{
    let name = read_name(l, 0)?;
    Ok(Line::Partial(PartialLine { name }))
}

fn read_entry<'t>(l: &'t [u8]) -> Result<Line<'t>, WrongColumn>
    ensures { read_by line_value result ≡ entry_line l.now }
{
    let root = read_number(l, 0)?;
    let flags = read_number(l, 6)?;
    read_end(l, 12)?;
    Ok(Line::Entry(EntryLine { root, flags }))
}

fn read_site<'t>(l: &'t [u8]) -> Result<Line<'t>, WrongColumn>
    ensures { read_by line_value result ≡ site_line l.now }
{
    let importer = read_number(l, 0)?;
    let resolved = read_optional(l, 6)?;
    let flags = read_number(l, 12)?;
    read_end(l, 18)?;
    Ok(Line::Site(SiteLine {
        importer,
        resolved,
        flags,
    }))
}

fn read_symbol<'t>(l: &'t [u8]) -> Result<Line<'t>, WrongColumn>
    ensures { read_by line_value result ≡ symbol_line l.now }
{
    let owner = read_number(l, 0)?;
    let link = read_number(l, 6)?;
    let alias = read_optional(l, 12)?;
    let flags = read_number(l, 18)?;
    read_end(l, 24)?;
    Ok(Line::Symbol(SymbolLine {
        owner,
        link,
        alias,
        flags,
    }))
}

// A line by its letter and what follows it; an unknown letter is wrong in column 1.
fn read_rest<'t>(letter: u8, l: &'t [u8]) -> Result<Line<'t>, WrongColumn>
    ensures { read_by line_value result ≡ line_of (letter ∷ l.now) }
{
    match char::from(letter) {
        'T' => read_table(l),
        'M' => read_module(l),
        'L' => Ok(Line::Load(read_item(l)?)),
        'D' => Ok(Line::Dependency(read_item(l)?)),
        'R' => Ok(Line::Resolved(read_item(l)?)),
        'U' => Ok(Line::Reference(read_item(l)?)),
        'X' => read_export(l),
        'P' => read_partial(l),
        'E' => read_entry(l),
        'I' => read_site(l),
        'S' => read_symbol(l),
        _ => Err(WrongColumn { column: 1 }),
    }
}

// A line by its letter, or its wrong column, from 1: an empty line and an unknown letter are wrong in column 1.
pub fn read_line<'t>(line: &'t [u8]) -> Result<Line<'t>, WrongColumn>
    ensures { read_by line_value result ≡ line_of line.now }
{
    match line {
        [letter, l @ ..] => read_rest(*letter, l),
        [] => Err(WrongColumn { column: 1 }),
    }
}
