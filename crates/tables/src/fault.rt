// Why a call is refused. This is the one place that has the numbers of the causes: a case that carries values has no
// discriminant to cast.
ghost use Rattle.std.specs.Prelude.{◌≡◌};
ghost use Rattle.tables.specs.Causes.{number_of, bare_fault};

use crate::thing::{Field, Thing};

#[derive(Clone, Copy, Debug, PartialEq, Eq)]
pub enum Cause {
    // the text breaks the form: line and column of the first wrong or missing line
    BrokenForm { line: usize, column: usize },
    // too few words are lent: how many are needed
    TooFewWords { needed: usize },
    // a count over its maximum: the count
    TooMany { count: usize },
    // a number names nothing, or a wrap or a sum of flags is too large
    NamesNothing,
    // links in a circle: the lowest symbol whose chain is endless
    EndlessLinks { symbol: usize },
    // an export name stands twice in a module: the second is the fault's thing
    NameTwice,
    // more than 256 atoms: the least module of atom 256
    TooManyAtoms { least: usize },
    BegunAlready,
    // advance before begin
    NotBegun,
    // a question names nothing that is there
    NothingThere,
    // the buffer for a line is under 26 bytes
    ShortBuffer,
}

impl Cause {
    pub fn number(self) -> u32
        ensures { result ≡ number_of self }
    {
        match self {
            Cause::BrokenForm { .. } => 1,
            Cause::TooFewWords { .. } => 2,
            Cause::TooMany { .. } => 3,
            Cause::NamesNothing => 4,
            Cause::EndlessLinks { .. } => 5,
            Cause::NameTwice => 6,
            Cause::TooManyAtoms { .. } => 7,
            Cause::BegunAlready => 8,
            Cause::NotBegun => 9,
            Cause::NothingThere => 10,
            Cause::ShortBuffer => 11,
        }
    }
}

// A refusal: its cause, the thing that it speaks of, which field of it, and where that stands in the table's own kind of place.
#[derive(Debug, PartialEq, Eq, Drop)]
pub struct Fault<P> {
    pub cause: Cause,
    pub thing: Option<Thing>,
    pub field: Field,
    pub place: Option<P>,
}

// A refusal that speaks of no thing.
impl<P> From<Cause> for Fault<P> {
    ghost from_gives = { λ c f. f ≡ bare_fault c };

    fn from(cause: Cause) -> Fault<P> {
        Fault {
            cause,
            thing: None,
            field: Field::Whole,
            place: None,
        }
    }
}
