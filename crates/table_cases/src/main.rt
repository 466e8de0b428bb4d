// Link tables on examples: the first fault of texts that break the form, and one value as a text and as records. What it
// writes is held to the file stdout.
#![tactic(auto)]

use records::{EntryRecord, Header, ModuleRecord, RecordTable};
use std::alloc::{AllocError, Global};
use tables::fault::Cause;
use tables::parts::{Export, Site, Symbol};
use tables::table::LinkTable;
use tables::thing::ModuleList;
use texttable::TextTable;

// The cause of a text's first fault, if it has one.
fn fault_of(heap: Global, text: &[u8]) -> Result<Option<Cause>, AllocError> {
    let table = TextTable::open(heap, text)?;
    Ok(table.check().err().map(|fault| fault.cause))
}

// A table of one module whose partial use is a name of `n` bytes.
fn named(heap: Global, n: usize) -> Result<Vec<u8>, AllocError> {
    let mut text = Vec::new(heap);
    text.extend_from_slice(b"T     1     0     0           0\nM   131                 0\nP ")?;
    text.extend_from_slice(vec![in heap; b'a'; n]?.as_slice())?;
    text.push(b'\n')?;
    Ok(text)
}

// Two tables answer the questions about the whole alike.
fn same_header<'t, A: LinkTable<'t>, B: LinkTable<'t>>(a: &mut A, b: &mut B) -> bool {
    (a.module_count() == b.module_count())
        && (a.entry_count() == b.entry_count())
        && (a.symbol_count() == b.symbol_count())
        && (a.runtime() == b.runtime())
        && (a.strict() == b.strict())
}

// Two tables answer every question about number `k` and item `i` alike.
fn same_things<'t, A: LinkTable<'t>, B: LinkTable<'t>>(
    a: &mut A,
    b: &mut B,
    k: usize,
    i: usize,
) -> bool {
    (a.module(k) == b.module(k))
        && (a.export(k, i) == b.export(k, i))
        && (a.partial(k, i) == b.partial(k, i))
        && (a.entry(k) == b.entry(k))
        && (a.site(k, i) == b.site(k, i))
        && (a.symbol(k) == b.symbol(k))
}

static CASES: [&[u8]; 26] = [
    b"",
    b"\n",
    b"T     0     0     0           0\n",
    // no byte 10 at the end
    b"T     0     0     0           0",
    // wrong letter
    b"U     0     0     0           0\n",
    b"T     1     0     0           0\nE     3                 0\n",
    // missing line
    b"T     1     0     0           0\n",
    b"T     0     0     1           0\n",
    // surplus line, and surplus bytes after the last line
    b"T     0     0     0           0\nL     0\n",
    b"T     0     0     0           0\nx",
    // short line
    b"T     0     0     0           \n",
    b"T     1     0     0           0\nM     3       \n",
    // surplus bytes in a line
    b"T     0     0     0           0 \n",
    // leading zero, a blank behind a digit, a byte that is no digit, a sign
    b"T    00     0     0           0\n",
    b"T     0    0      0           0\n",
    b"T     0     0    0x           0\n",
    b"T    -1     0     0           0\n",
    // blank where none may be
    b"T           0     0           0\n",
    b"T     1     0     0           0\nM     3                  \n",
    // strict and CommonJS
    b"T     0     0     0           2\n",
    b"T     1     0     0           0\nM     3                 0\nX     0     2 a\n",
    // the blank before a name
    b"T     1     0     0           0\nM     3                 0\nX     0     0\n",
    b"T     1     0     0           0\nM     3                 0\nPa\n",
    // lists out of their order
    b"T     1     0     0           0\nM     3                 0\nD     0\nL     0\n",
    // the first of two faults
    b"T     1     0     0           0\nM    03                 0\nL    00\n",
    b"T     1     1     1     0     1\nM     3                 0\nL     7\nX     9     1 then\nP a b\nE     0     1\nI     0           7\nS     0     0           1\n",
];

static TEXT: &[u8] =
    b"T     2     2     2     0     1\nM     7     1           0\nX     1     0 x\nX     0     1 then\nM   131           0     2\nL     0\nD     0\nD     1\nR     0\nU     1\nU     0\nP x\nE     1     0\nE     0     3\nI     1     0     3\nI     1           7\nS     0     0     1     1\nS     1     1           0\n";

static MODULES: [ModuleRecord<'static>; 2] = [
    ModuleRecord {
        flags: 7,
        namespace: Some(1),
        wrapper: None,
        wrap: 0,
        loads: &[],
        dependencies: &[],
        resolved: &[],
        references: &[],
        exports: &[
            Export {
                symbol: 1,
                commonjs: false,
                name: b"x",
            },
            Export {
                symbol: 0,
                commonjs: true,
                name: b"then",
            },
        ],
        partial: &[],
    },
    ModuleRecord {
        flags: 131,
        namespace: None,
        wrapper: Some(0),
        wrap: 2,
        loads: &[0],
        dependencies: &[0, 1],
        resolved: &[0],
        references: &[1, 0],
        exports: &[],
        partial: &[b"x"],
    },
];

static ENTRIES: [EntryRecord<'static>; 2] = [
    EntryRecord {
        root: 1,
        flags: 0,
        sites: &[],
    },
    EntryRecord {
        root: 0,
        flags: 3,
        sites: &[
            Site {
                importer: 1,
                target: Some(0),
                flags: 3,
            },
            Site {
                importer: 1,
                target: None,
                flags: 7,
            },
        ],
    },
];

static SYMBOLS: [Symbol; 2] = [
    Symbol {
        owner: 0,
        link: 0,
        alias: Some(1),
        flags: 1,
    },
    Symbol {
        owner: 1,
        link: 1,
        alias: None,
        flags: 0,
    },
];

fn records() -> RecordTable<'static> {
    RecordTable {
        header: Header {
            runtime: Some(0),
            strict: true,
        },
        modules: &MODULES,
        entries: &ENTRIES,
        symbols: &SYMBOLS,
    }
}

// Line and column of a text that breaks the form, 0 and 0 where there is no fault, and 0 and 1 for any other. Numbers, since
// the file that it is held to has two numbers on each line.
fn shown(cause: Option<Cause>) -> (usize, usize) {
    match cause {
        Some(Cause::BrokenForm { line, column }) => (line, column),
        Some(_) => (0, 1),
        None => (0, 0),
    }
}

// A line for each text: line and column of its first fault, 0 and 0 for a text that keeps the form.
fn show_faults(rt: &HostRuntime) -> anyhow::Result<()> {
    for text in CASES.iter() {
        let (line, column) = shown(fault_of(rt.alloc(), text)?);
        println!(rt; "{line} {column}")?;
    }
    Ok(())
}

// Names of 0, 1, 255 and 256 bytes.
fn show_names(rt: &HostRuntime) -> anyhow::Result<()> {
    for n in [0, 1, 255, 256] {
        let text = named(rt.alloc(), n)?;
        let (line, column) = shown(fault_of(rt.alloc(), text.as_slice())?);
        println!(rt; "name of {n}: {line} {column}")?;
    }
    Ok(())
}

const LISTS: [ModuleList; 4] = [
    ModuleList::Loads,
    ModuleList::Dependencies,
    ModuleList::Resolved,
    ModuleList::References,
];

// Two tables answer every question about item `i` of a list of module `k` alike.
fn same_items<'t, A: LinkTable<'t>, B: LinkTable<'t>>(
    a: &mut A,
    b: &mut B,
    k: usize,
    i: usize,
) -> bool {
    // a `for`: no proof is made for a closure that holds both tables, as `all` would take
    for list in LISTS {
        if a.item(list, k, i) != b.item(list, k, i) {
            return false;
        }
    }
    true
}

// How many of the questions about numbers and items below 4, which are more than there are, are answered differently.
fn differences<'t, A: LinkTable<'t>, B: LinkTable<'t>>(a: &mut A, b: &mut B) -> usize {
    let mut n: usize = 0;
    // a `for`: no proof is made for a closure that holds both tables, as `filter` would take
    for q in 0..16 {
        if !same_things(a, b, q / 4, q % 4) || !same_items(a, b, q / 4, q % 4) {
            n = n.saturating_add(1);
        }
    }
    n
}

fn show_differences(rt: &HostRuntime) -> anyhow::Result<()> {
    let mut text = TextTable::open(rt.alloc(), TEXT)?;
    let mut records = records();
    let header = same_header(&mut text, &mut records);
    let n = differences(&mut text, &mut records);
    println!(rt; "text and records: header alike: {header}, different answers: {n}")?;
    Ok(())
}

fn main(rt: HostRuntime) -> anyhow::Result<()> {
    show_faults(&rt)?;
    show_names(&rt)?;
    show_differences(&rt)
}
