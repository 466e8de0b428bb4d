// What the planner's answers ARE: bits, atoms, graphs, covering, verdicts, chunks and the delivery list, and the laws that
// say that these definitions mean what the words of the subject mean.
#![tactic(auto)]

ghost use Rattle.std.specs.Prelude.{◌≡◌};
ghost use Rattle.definitions.specs.Bits.{has, atom};
ghost use Rattle.definitions.specs.Cover.{loads, covered};
ghost use Rattle.definitions.specs.Plan.{number, chunks_cyclic, decided, has_after};
ghost use Rattle.definitions.specs.Checks.{table_checked};
ghost use Rattle.definitions.specs.Cases.{SmallCases, Refusals, in_order, first_again};
ghost use Rattle.definitions.specs.Laws.{TestsAgree, Decisions};
ghost use Rattle.definitions.specs.Prepared.{prepared, Prepares};

pub mod size;

// The verdict on an atom. Its number stands in `number` alone: a case that carries values has no discriminant to cast.
#[derive(Clone, Copy, Debug, PartialEq, Eq)]
pub enum Verdict {
    Undecided,
    NothingLost,
    NothingRemains,
    Objected,
    Refused,
    Cyclic,
    Accepted,
    // with the entry and its module whose namespace is kept
    AcceptedWithNamespace { entry: u32, module: u32 },
}

impl Verdict {
    pub fn number(self) -> u32
        ensures { result ≡ number self }
    {
        match self {
            Verdict::Undecided => 0,
            Verdict::NothingLost => 1,
            Verdict::NothingRemains => 2,
            Verdict::Objected => 3,
            Verdict::Refused => 4,
            Verdict::Cyclic => 5,
            Verdict::Accepted => 6,
            Verdict::AcceptedWithNamespace { .. } => 7,
        }
    }
}

// What the rules say of adding an atom to the chunk of one entry.
#[derive(Clone, Copy, Debug, PartialEq, Eq)]
pub enum ReducedEntriesAction {
    Avoid,
    Apply,
    // with the entry and its module whose namespace is kept
    ApplyWithNamespaceExtraction { entry: u32, module: u32 },
}

// The tests that compute say what the words of the subject say: paths, chains, cycles.
pub fn tests_agree()
    ensures { TestsAgree has atom loads covered chunks_cyclic }
{}

// What the decisions come to, after any list of atoms.
pub fn decisions_stand()
    ensures { Decisions decided has_after }
{}

// The verdict on an atom is what table and veto alone prepare, and the test for cycles.
pub fn prepared_stands()
    ensures { Prepares prepared }
{}

// The small cases hold of the definitions.
pub fn small_cases()
    ensures { SmallCases in_order }
{}

// What begin refuses of small tables, and what it accepts.
pub fn small_refusals()
    ensures { Refusals table_checked }
{}
