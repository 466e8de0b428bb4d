// table_speed BYTES: how long it takes to open a text of about as many bytes, and to ask it a million questions.
// Without an argument it prints nothing.
#![tactic(auto)]

use std::alloc::{AllocError, Global};
use std::env;
use std::time::Instant;
use tables::table::LinkTable;
use tables::thing::ModuleList;
use texttable::TextTable;
use written::line_text;

const QUESTIONS: usize = 1_000_000;

// A module with three loads takes 50 bytes.
const MODULE_BYTES: usize = 50;

// The letter is the byte that is written.
fn push_line(
    heap: Global,
    text: &mut Vec<u8>,
    letter: u8,
    fields: &[Option<usize>],
) -> Result<(), AllocError> {
    let line = line_text(heap, letter, fields)?;
    text.extend_from_slice(line.as_slice())
}

fn text_of(heap: Global, modules: usize) -> Result<Vec<u8>, AllocError> {
    let mut text = Vec::new(heap);
    push_line(
        heap,
        &mut text,
        b'T',
        &[Some(modules), Some(0), Some(0), None, Some(0)],
    )?;
    for m in 0..modules {
        push_line(heap, &mut text, b'M', &[Some(3), None, None, Some(0)])?;
        push_line(heap, &mut text, b'L', &[Some(m)])?;
        push_line(heap, &mut text, b'L', &[Some(m / 2)])?;
        push_line(heap, &mut text, b'L', &[Some(m / 3)])?;
    }
    Ok(text)
}

// The sum of what some questions answer, so that none is left out.
fn ask<'t, T: LinkTable<'t>>(table: &mut T, modules: usize) -> u64 {
    let mut sum: u64 = 0;
    // a `for`: a closure would hold the table, and what it leaves of it is not known
    for q in 0..QUESTIONS {
        if let Some(d) = table.item(ModuleList::Loads, q % modules.max(1), q % 4) {
            sum = sum.wrapping_add(u64::from(d));
        }
    }
    sum
}

fn measure(rt: &HostRuntime, modules: usize) -> anyhow::Result<()> {
    let text = text_of(rt.alloc(), modules)?;
    let bytes = text.len();
    let began = Instant::now(rt)?;
    let mut table = TextTable::open(rt.alloc(), text.as_slice())?;
    let opened = began.elapsed(rt)?.as_millis();
    let began = Instant::now(rt)?;
    let sum = ask(&mut table, modules);
    let asked = began.elapsed(rt)?.as_millis();
    println!(rt;
        "{bytes} bytes, {modules} modules: opened in {opened} ms; {QUESTIONS} questions in {asked} ms (sum {sum})"
    )?;
    Ok(())
}

fn main(rt: HostRuntime) -> anyhow::Result<()> {
    match env::args(&rt)?.nth(1) {
        Some(bytes) => {
            let bytes = bytes.as_str().parse::<usize>()?;
            measure(&rt, (bytes / MODULE_BYTES).min(999_999))
        }
        None => Ok(()),
    }
}
