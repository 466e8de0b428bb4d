// The next line of a text: what it is, and how it is read.
ghost use Rattle.std.specs.Prelude.{◌≡◌, map};
ghost use Rattle.texts.specs.Form.{reading, one, many};
ghost use Rattle.texts.specs.Exact.{here, spent, Exactly, next_starts};
ghost use Rattle.texts.specs.Rows.{numbered_by};

use crate::cut::{cut_line, has_letter, read_as};
use crate::reader::Reader;
use crate::rows::Numbered;
use crate::unreadable::Unreadable;
use lines::LineKind;
use std::alloc::Global;

impl<'t> Reader<'t> {
    // Before the first line of a text.
    pub(crate) fn new(heap: Global, text: &'t [u8]) -> Reader<'t>
        ensures { here result ≡ reading 1 text.now }
    {
        let (next, rest) = cut_line(text);
        Reader {
            heap,
            next,
            rest,
            line: 1,
        }
    }

    // The next line is of the kind `L`, by its letter.
    fn next_is<L: LineKind<'t>>(&self) -> bool
        ensures { result ≡ next_starts L.letter (here self.now).left }
    {
        // by name: a closure that calls `L::letter` gets no proof
        let letter = L::letter();
        self.next.is_some_and(|line| has_letter(line, letter))
    }

    // Nothing is left: no line, and none begun.
    pub(crate) fn is_spent(&self) -> bool
        ensures { result ≡ spent (here self.now) }
    {
        self.next.is_none() && self.rest.is_empty()
    }

    // The next line, which is of the kind `L`.
    pub(crate) fn read_one<L: LineKind<'t>>(&mut self) -> Result<Numbered<L>, Unreadable>
        ensures { Exactly (numbered_by L.value) result (here self.new) (one L.letter (here self.old)) }
    {
        let number = self.line;
        let Some(held) = self.next else {
            return Err(Unreadable::at(number, 1));
        };
        let line = read_as(held).map_err(|wrong| Unreadable::at(number, wrong.column))?;
        let (next, rest) = cut_line(self.rest);
        self.next = next;
        self.rest = rest;
        self.line += 1;
        Ok(Numbered { number, line })
    }

    // As many lines as are of the kind `L`.
    #[tactic(auto, using(crate::proofs::Parts::reading_many))]
    pub(crate) fn read_many<L: LineKind<'t>>(&mut self) -> Result<Vec<Numbered<L>>, Unreadable>
        ensures { Exactly (λ w. map (numbered_by L.value) w.items) result
            (here self.new) (many L.letter (here self.old)) }
    {
        let mut lines = Vec::new(self.heap);
        while self.next_is::<L>() {
            lines.push(self.read_one()?)?;
        }
        Ok(lines)
    }
}
