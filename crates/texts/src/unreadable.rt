// Why a text gives no rows.
ghost use Rattle.std.specs.Prelude.{◌≡◌};
ghost use Rattle.texts.specs.Form.{place};
ghost use Rattle.texts.specs.declared.unreadable.Unreadable.TheVariants.{Memory, Form};

use crate::place::TextPlace;
use std::alloc::{AllocError, AllocFailed};

#[derive(Debug, Clone, Copy, PartialEq, Eq)]
pub enum Unreadable {
    // no memory for the rows
    Memory,
    // the first wrong or missing line, and its column
    Form(TextPlace),
}

impl Unreadable {
    // A line is wrong, or missing, in this column.
    pub(crate) fn at(line: usize, column: usize) -> Unreadable
        ensures { result ≡ Form (place line column) }
    {
        Unreadable::Form(TextPlace { line, column })
    }
}

// For what allocates otherwise; nothing in this crate does.
impl From<AllocError> for Unreadable {
    ghost from_gives = { λ _ r. r ≡ Memory };

    fn from(_e: AllocError) -> Unreadable {
        Unreadable::Memory
    }
}

// A list that grows fails with an error of its own, which holds what was to be added.
impl<T: Drop> From<AllocFailed<T>> for Unreadable {
    ghost from_gives = { λ _ r. r ≡ Memory };

    fn from(_e: AllocFailed<T>) -> Unreadable {
        Unreadable::Memory
    }
}
