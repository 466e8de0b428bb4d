// How large a table a plan can be over, and the words that it needs.
ghost use Rattle.std.specs.Prelude.{◌≡◌, ◌≤◌};
ghost use Rattle.definitions.specs.Plan.{need};

// So many modules and entries, no more than a plan is made over.
#[derive(Clone, Copy, Debug, PartialEq, Eq)]
pub struct Size {
    pub modules: usize,
    pub entries: usize,
    ghost few_modules: { modules ≤ 4096 },
    ghost few_entries: { entries ≤ 256 },
}

impl Size {
    // The words that a plan over so many modules and entries needs.
    pub fn words_needed(self) -> usize
        ensures { result ≡ need self.modules self.entries }
    {
        12 * self.modules + 24 * self.entries + 32 * self.modules.min(256) + 16
    }
}
