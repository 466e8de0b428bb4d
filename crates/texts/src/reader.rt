// What is left of a text. Each line is cut off once, and held until it is read.
ghost use Rattle.std.specs.Prelude.{◌+◌, ◌^◌, ◌<◌, length};
ghost use Rattle.texts.specs.Cut.{ahead};

use std::alloc::Global;

#[derive(Debug, Drop)]
pub(crate) struct Reader<'t> {
    // where what is read is kept
    pub(crate) heap: Global,
    // the next line, without the byte 10 that ends it
    pub(crate) next: Option<&'t [u8]>,
    // what follows the next line, or the unfinished rest where there is none
    pub(crate) rest: &'t [u8],
    // the number of the next line, from 1
    pub(crate) line: usize,
    ghost few: { line + ahead next + length rest.now < 2 ^ 64 },
}
