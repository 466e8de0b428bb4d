// caqespi FILE: checks the text of a link table. Without FILE it reads standard input.
#![tactic(auto)]

use console::{Answer, LONGEST, respond};
use std::alloc::Global;
use std::fs::File;
use std::io::{ErrorKind, Read, Write};
use std::process::ExitCode;
use std::{env, io};

// Reads one byte more than the longest text has, so that a longer one is known. Each read asks for all that is still wanted:
// where an input keeps messages apart, as a socket may, what a read does not take is lost.
fn read_text<R: Read + Drop>(alloc: Global, mut input: R) -> io::Result<Vec<u8>> {
    let mut text = vec![in alloc; 0u8; LONGEST + 1]?;
    let mut n = 0;
    for _ in 0..u64::MAX {
        if n >= text.len() {
            break;
        }
        match input.read(&mut text.as_mut_slice()[n..]) {
            Ok(0) => break,
            Ok(more) => n += more,
            Err(e) if e.kind() == ErrorKind::Interrupted => {}
            Err(e) => return Err(e),
        }
    }
    text.truncate(n);
    Ok(text)
}

// The text in the file that the first argument names, or else on standard input.
fn read_input(rt: &HostRuntime) -> io::Result<Vec<u8>> {
    match env::args(rt)?.nth(1) {
        Some(path) => read_text(rt.alloc(), File::open(rt, path.as_str())?),
        None => read_text(rt.alloc(), rt.stdin()),
    }
}

// Writes the answer to the text. The program has failed where the text is refused, and the answer says why.
fn run(rt: &HostRuntime) -> anyhow::Result<ExitCode> {
    let text = read_input(rt)?;
    let (bytes, status) = match respond(rt.alloc(), text.as_slice())? {
        Answer::Delivered(bytes) => (bytes, ExitCode::SUCCESS),
        Answer::Refused(bytes) => (bytes, ExitCode::FAILURE),
    };
    rt.stdout().write_all(bytes.as_slice())?;
    Ok(status)
}

fn main(rt: HostRuntime) -> ExitCode {
    run(&rt).unwrap_or_else(|e| {
        let _ = eprintln!(rt; "caqespi: the text cannot be read or answered: {e}");
        ExitCode::FAILURE
    })
}
