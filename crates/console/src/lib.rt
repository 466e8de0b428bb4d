// What the program answers to the bytes of a text.
#![tactic(auto)]

ghost use Rattle.std.specs.Prelude.{◌≡◌, IfOk};
ghost use Rattle.console.specs.Outcome.{header_line, fault_line, outcome, Answered, Delivers};

use std::alloc::{AllocError, Global};
use stop::Stop;
use tables::fault::{Cause, Fault};
use tables::table::LinkTable;
use texts::TextPlace;
use texttable::TextTable;
use written::line_text;

mod stop;

// The longest text that is read.
pub const LONGEST: usize = 20_000;

// The bytes to write. A type of its own and no `Result`: a refusal is an answer here, and the error beside it is want of memory.
#[derive(Drop)]
pub enum Answer {
    // what the program writes for a text that it takes
    Delivered(Vec<u8>),
    // the line F of a text that it refuses
    Refused(Vec<u8>),
}

// The header of a table, as its questions answer it.
fn header_line<'t, T: LinkTable<'t>>(heap: Global, table: &mut T) -> Result<Vec<u8>, AllocError>
    ensures { IfOk result (λ v. v.items ≡ header_line (T.means table.old).table) }
{
    let modules = table.module_count();
    let entries = table.entry_count();
    let symbols = table.symbol_count();
    let runtime = table.runtime().map(|m| m as usize);
    let strict = usize::from(table.strict());
    let fields = [
        Some(modules),
        Some(entries),
        Some(symbols),
        runtime,
        Some(strict),
    ];
    line_text(heap, b'T', &fields)
}

// The line F of a fault.
fn fault_line(heap: Global, fault: &Fault<TextPlace>) -> Result<Vec<u8>, AllocError>
    ensures { IfOk result (λ v. v.items ≡ fault_line fault.now) }
{
    let number = fault.cause.number() as usize;
    let line = fault.place.map(|place| place.line);
    let column = fault.place.map(|place| place.column);
    line_text(heap, b'F', &[Some(number), line, column])
}

// What the program writes for a text that it does not refuse.
fn delivered(heap: Global, text: &[u8]) -> Result<Vec<u8>, Stop>
    ensures { Delivers (λ v. v.items) result (outcome text.now) }
{
    if text.len() > LONGEST {
        return Err(Stop::Refused(Fault::from(Cause::TooMany { count: text.len() })));
    }
    let mut table = TextTable::open(heap, text)?;
    table.check()?;
    Ok(header_line(heap, &mut table)?)
}

// What the program writes for a text: the table's header, or the line F of its first fault.
pub fn respond(heap: Global, text: &[u8]) -> Result<Answer, AllocError>
    ensures { IfOk result (λ a. Answered text.now a) }
{
    match delivered(heap, text) {
        Ok(bytes) => Ok(Answer::Delivered(bytes)),
        Err(Stop::Refused(fault)) => Ok(Answer::Refused(fault_line(heap, &fault)?)),
        Err(Stop::Memory) => Err(AllocError),
    }
}
