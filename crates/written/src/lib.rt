// Fields and lines as they are written.
#![tactic(auto)]

ghost use Rattle.std.specs.Prelude.{◌≡◌, IfOk};
ghost use Rattle.written.specs.Written.{digit6, number6, field6, fields_line};

use std::alloc::{AllocError, Global};

// A column of a number, from what is left of it there: blank where nothing is.
fn digit_text(v: usize) -> u8
    ensures { result ≡ digit6 v }
{
    if v == 0 { b' ' } else { b'0' + (v % 10) as u8 }
}

// A number in six columns: of a longer one the last six digits, where a width of `write!` would write more columns.
pub fn number_text(v: usize) -> [u8; 6]
    ensures { result ≡ number6 v }
{
    [
        digit_text(v / 100_000),
        digit_text(v / 10_000),
        digit_text(v / 1_000),
        digit_text(v / 100),
        digit_text(v / 10),
        b'0' + (v % 10) as u8,
    ]
}

// A field: a number, or six blanks.
pub fn field_text(v: Option<usize>) -> [u8; 6]
    ensures { result ≡ field6 v }
{
    v.map_or([b' '; 6], number_text)
}

// A line of fields, behind its letter: a byte and no enum, since it is the byte that is written.
pub fn line_text(heap: Global, letter: u8, fields: &[Option<usize>]) -> Result<Vec<u8>, AllocError>
    ensures { IfOk result (λ v. v.items ≡ fields_line letter fields.now) }
{
    // no `vec!` of the letter: it takes one byte, and the next field would ask for memory again
    let mut out = Vec::new(heap);
    out.push(letter)?;
    for f in fields {
        out.extend_from_slice(&field_text(*f))?;
    }
    out.push(b'\n')?;
    Ok(out)
}
