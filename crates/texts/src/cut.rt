// The lines of a text.
ghost use Rattle.std.specs.Prelude.{◌≡◌, ◌==◌, cond, Err};
ghost use Rattle.lines.specs.Field.{read_by};
ghost use Rattle.lines.specs.Lines.{line_of};
ghost use Rattle.std.specs.List.{position};
ghost use Rattle.std.specs.Option.{option_map};
ghost use Rattle.texts.specs.Form.{starts};
ghost use Rattle.texts.specs.Cut.{Cut};

use lines::{LineKind, WrongColumn, read_line};

// The index of the first byte 10.
fn line_end(text: &[u8]) -> Option<usize>
    ensures { result ≡ position (λ b. b == 10) text.now }
{
    text.iter().position(|b| *b == b'\n')
}

// The first finished line of a text and what follows its end, or no line and all of the text.
pub(crate) fn cut_line<'t>(text: &'t [u8]) -> (Option<&'t [u8]>, &'t [u8])
    ensures { Cut text.now (option_map (λ l. l.now) result.0) result.1.now }
{
    match line_end(text) {
        Some(n) => (Some(&text[..n]), &text[n + 1..]),
        None => (None, text),
    }
}

// The line has this letter.
pub(crate) fn has_letter(line: &[u8], letter: u8) -> bool
    ensures { result ≡ starts letter line.now }
{
    line.first() == Some(&letter)
}

// The line as one of the kind `L`: a line with another letter is wrong in column 1.
pub(crate) fn read_as<'t, L: LineKind<'t>>(line: &'t [u8]) -> Result<L, WrongColumn>
    ensures { read_by L.value result ≡ cond (starts L.letter line.now) (line_of line.now) (Err 1) }
{
    if !has_letter(line, L::letter()) {
        return Err(WrongColumn { column: 1 });
    }
    L::of(read_line(line)?).ok_or(WrongColumn { column: 1 })
}
