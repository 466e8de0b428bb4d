// A kind of line as a type, and a line as one of a kind.
ghost use Rattle.std.specs.Prelude.{◌≡◌, ℕ};
ghost use Rattle.std.specs.Option.{option_map};
ghost use Rattle.lines.specs.Lines.{LineValue};
ghost use Rattle.lines.specs.Values.{of_letter, line_value, table_value, module_value, item_value};
ghost use Rattle.lines.specs.Values.{export_value, partial_value, entry_value, site_value, symbol_value};

use crate::kinds::{
    DependencyLine, EntryLine, ExportLine, LoadLine, ModuleLine, PartialLine, ReferenceLine,
    ResolvedLine, SiteLine, SymbolLine, TableLine,
};
use crate::line::Line;

// The letter is a method: with a constant in its place the check gives no clauses to the kinds that have a lifetime. `of` is a
// member and no `TryFrom`, so that one bound says letter, value and how a kind takes its line.
pub trait LineKind<'t>: Copy {
    ghost letter: { ℕ };

    // what a line of this kind stands for
    ghost value: { Self → LineValue };

    // The letter of the lines of this kind.
    fn letter() -> u8
        ensures { result ≡ letter };

    // The line, if it is of this kind.
    fn of(line: Line<'t>) -> Option<Self>
        ensures { option_map value result ≡ of_letter letter (line_value line.entry) };
}

// `read_line` is public and reads a line of any kind, so a kind takes its line out of that. An impl for each kind is
// written out: the macros of a repository may not write impls.
impl<'t> LineKind<'t> for TableLine {
    ghost letter = { 84 };

    ghost value = { table_value };

    fn letter() -> u8 {
        b'T'
    }

    fn of(line: Line<'t>) -> Option<Self> {
        match line {
            Line::Table(line) => Some(line),
            _ => None,
        }
    }
}

impl<'t> LineKind<'t> for ModuleLine {
    ghost letter = { 77 };

    ghost value = { module_value };

    fn letter() -> u8 {
        b'M'
    }

    fn of(line: Line<'t>) -> Option<Self> {
        match line {
            Line::Module(line) => Some(line),
            _ => None,
        }
    }
}

impl<'t> LineKind<'t> for LoadLine {
    ghost letter = { 76 };

    ghost value = { item_value 76 };

    fn letter() -> u8 {
        b'L'
    }

    fn of(line: Line<'t>) -> Option<Self> {
        match line {
            Line::Load(line) => Some(line),
            _ => None,
        }
    }
}

impl<'t> LineKind<'t> for DependencyLine {
    ghost letter = { 68 };

    ghost value = { item_value 68 };

    fn letter() -> u8 {
        b'D'
    }

    fn of(line: Line<'t>) -> Option<Self> {
        match line {
            Line::Dependency(line) => Some(line),
            _ => None,
        }
    }
}

impl<'t> LineKind<'t> for ResolvedLine {
    ghost letter = { 82 };

    ghost value = { item_value 82 };

    fn letter() -> u8 {
        b'R'
    }

    fn of(line: Line<'t>) -> Option<Self> {
        match line {
            Line::Resolved(line) => Some(line),
            _ => None,
        }
    }
}

impl<'t> LineKind<'t> for ReferenceLine {
    ghost letter = { 85 };

    ghost value = { item_value 85 };

    fn letter() -> u8 {
        b'U'
    }

    fn of(line: Line<'t>) -> Option<Self> {
        match line {
            Line::Reference(line) => Some(line),
            _ => None,
        }
    }
}

impl<'t> LineKind<'t> for ExportLine<'t> {
    ghost letter = { 88 };

    ghost value = { export_value };

    fn letter() -> u8
        ensures { result ≡ 88 }
    {
        b'X'
    }

    fn of(line: Line<'t>) -> Option<Self> {
        match line {
            Line::Export(line) => Some(line),
            _ => None,
        }
    }
}

impl<'t> LineKind<'t> for PartialLine<'t> {
    ghost letter = { 80 };

    ghost value = { partial_value };

    fn letter() -> u8
        ensures { result ≡ 80 }
    {
        b'P'
    }

    fn of(line: Line<'t>) -> Option<Self> {
        match line {
            Line::Partial(line) => Some(line),
            _ => None,
        }
    }
}

impl<'t> LineKind<'t> for EntryLine {
    ghost letter = { 69 };

    ghost value = { entry_value };

    fn letter() -> u8 {
        b'E'
    }

    fn of(line: Line<'t>) -> Option<Self> {
        match line {
            Line::Entry(line) => Some(line),
            _ => None,
        }
    }
}

impl<'t> LineKind<'t> for SiteLine {
    ghost letter = { 73 };

    ghost value = { site_value };

    fn letter() -> u8 {
        b'I'
    }

    fn of(line: Line<'t>) -> Option<Self> {
        match line {
            Line::Site(line) => Some(line),
            _ => None,
        }
    }
}

impl<'t> LineKind<'t> for SymbolLine {
    ghost letter = { 83 };

    ghost value = { symbol_value };

    fn letter() -> u8 {
        b'S'
    }

    fn of(line: Line<'t>) -> Option<Self> {
        match line {
            Line::Symbol(line) => Some(line),
            _ => None,
        }
    }
}
