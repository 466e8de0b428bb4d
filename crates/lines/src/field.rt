// The fields of a line. `l` is the line without its letter, so that offset `at` of it is column `at + 2`.
// `l` and `at` are two parameters: a field stands at a fixed offset, which says its column, and where a cursor stands after
// one field is not carried to the next by the check (`returns` of each line of two fields or more stays open).
ghost use Rattle.std.specs.Prelude.{◌≡◌, ◌+◌, ◌<◌, ◌≤◌, length};
ghost use Rattle.lines.specs.Field.{column, columns, field, number, optional, bit, name, ended};
ghost use Rattle.lines.specs.Field.{Small, bit_value, read_by, as_read};
ghost use Rattle.lines.specs.declared.field.Field.TheVariants.{Blank};

use crate::wrong::WrongColumn;

// What the columns of a field say so far: no `Result` of an `Option`, since a number may go on, and a 0 may not.
#[derive(Debug, Clone, Copy, PartialEq, Eq)]
pub enum Field {
    Blank,
    Zero,
    Number(u32),
    Wrong,
}

// One column more.
fn next_column(f: Field, b: u8) -> Field
    requires { Small f 100000 }
    ensures { result ≡ column f b }
{
    match f {
        Field::Blank => match b {
            b' ' => Field::Blank,
            b'0' => Field::Zero,
            b'1'..=b'9' => Field::Number(u32::from(b - b'0')),
            _ => Field::Wrong,
        },
        Field::Number(v) => match b {
            b'0'..=b'9' => Field::Number(v * 10 + u32::from(b - b'0')),
            _ => Field::Wrong,
        },
        Field::Zero | Field::Wrong => Field::Wrong,
    }
}

// What the six columns of a field say.
fn read_columns(bytes: &[u8]) -> Field
    requires { length bytes.now ≤ 6 }
    ensures { result ≡ columns Blank bytes.now }
{
    let mut f = Field::Blank;
    for b in bytes {
        f = next_column(f, *b);
    }
    f
}

// The field at an offset; one that is cut is wrong.
fn read_field(l: &[u8], at: u16) -> Field
    ensures { result ≡ field l.now at }
{
    let at = usize::from(at);
    l.get(at..at + 6).map_or(Field::Wrong, read_columns)
}

// A number or a blank field; else the field's column.
pub(crate) fn read_optional(l: &[u8], at: u16) -> Result<Option<u32>, WrongColumn>
    ensures { as_read result ≡ optional l.now at }
{
    match read_field(l, at) {
        Field::Blank => Ok(None),
        Field::Zero => Ok(Some(0)),
        Field::Number(v) => Ok(Some(v)),
        Field::Wrong => Err(WrongColumn {
            column: usize::from(at) + 2,
        }),
    }
}

// A number: a blank field is wrong.
pub(crate) fn read_number(l: &[u8], at: u16) -> Result<u32, WrongColumn>
    ensures { as_read result ≡ number l.now at }
{
    read_optional(l, at)?.ok_or(WrongColumn {
        column: usize::from(at) + 2,
    })
}

// 0 or 1.
pub(crate) fn read_bit(l: &[u8], at: u16) -> Result<bool, WrongColumn>
    ensures { read_by bit_value result ≡ bit l.now at }
{
    match read_number(l, at)? {
        0 => Ok(false),
        1 => Ok(true),
        _ => Err(WrongColumn {
            column: usize::from(at) + 2,
        }),
    }
}

// A blank, and the name that follows it to the end of the line: a part of the line.
pub(crate) fn read_name<'t>(l: &'t [u8], at: u16) -> Result<&'t [u8], WrongColumn>
    ensures { read_by (λ n. n.now) result ≡ name l.now at }
{
    let at = usize::from(at);
    let Some([b' ', name @ ..]) = l.get(at..) else {
        return Err(WrongColumn { column: at + 2 });
    };
    if name.is_empty() || name.len() > 255 {
        return Err(WrongColumn { column: at + 3 });
    }
    Ok(name)
}

// The line ends there: else its column 1 is wrong.
pub(crate) fn read_end(l: &[u8], at: u16) -> Result<(), WrongColumn>
    ensures { as_read result ≡ ended l.now at }
{
    if l.len() == usize::from(at) {
        Ok(())
    } else {
        Err(WrongColumn { column: 1 })
    }
}
