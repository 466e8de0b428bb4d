// The parts of a table, from their lines.
ghost use Rattle.std.specs.Prelude.{◌≡◌};
ghost use Rattle.lines.specs.Values as line;
ghost use Rattle.tables.specs.Asked.{export_value, info_of, entry_info_of};
ghost use Rattle.texts.specs.Rows.{numbered_by, module_value, entry_value};
ghost use Rattle.textparts.specs.Said.{module_of, entry_of, export_of, site_of, symbol_of};

use lines::{ExportLine, SiteLine, SymbolLine};
use tables::parts::{EntryInfo, Export, ModuleInfo, Site, Symbol};
use texts::{EntryRow, ModuleRow, Numbered};

// Functions and no impls of `From`: neither the rows nor the parts are types of this crate. The table over records has the like
// of `module_info` and `entry_info`, over records whose lists are slices: what they share is the list of fields.
pub fn module_info(row: &ModuleRow) -> ModuleInfo
    ensures { result ≡ info_of (module_of (module_value row.now)) }
{
    let head = row.head.line;
    ModuleInfo {
        flags: head.flags,
        namespace: head.namespace,
        wrapper: head.wrapper,
        wrap: head.wrap,
        loads: row.loads.len(),
        dependencies: row.dependencies.len(),
        resolved: row.resolved.len(),
        references: row.references.len(),
        exports: row.exports.len(),
        partial: row.partial.len(),
    }
}

pub fn entry_info(row: &EntryRow) -> EntryInfo
    ensures { result ≡ entry_info_of (entry_of (entry_value row.now)) }
{
    let entry = row.head.line;
    EntryInfo {
        root: entry.root,
        flags: entry.flags,
        sites: row.sites.len(),
    }
}

pub fn export_of<'t>(n: Numbered<ExportLine<'t>>) -> Export<'t>
    ensures { export_value result ≡ export_of (numbered_by line.export_value n.entry) }
{
    Export {
        symbol: n.line.symbol,
        commonjs: n.line.commonjs,
        name: n.line.name,
    }
}

pub fn site_of(n: Numbered<SiteLine>) -> Site
    ensures { result ≡ site_of (numbered_by line.site_value n) }
{
    Site {
        importer: n.line.importer,
        target: n.line.resolved,
        flags: n.line.flags,
    }
}

pub fn symbol_of(n: Numbered<SymbolLine>) -> Symbol
    ensures { result ≡ symbol_of (numbered_by line.symbol_value n) }
{
    Symbol {
        owner: n.line.owner,
        link: n.line.link,
        alias: n.line.alias,
        flags: n.line.flags,
    }
}
