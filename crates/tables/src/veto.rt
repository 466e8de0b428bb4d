// A veto: a yes or no for each rising list of modules.
ghost use Rattle.std.specs.Prelude.{◌≡◌, ℕ, Bool, false, List};
ghost use Rattle.tables.specs.Vetoes.{any_among};

// Whether folding an atom's modules into another chunk is objected to: the same answer whenever it is asked.
pub trait Veto {
    ghost objects: { Self → List ℕ → Bool };

    fn objects_to(&mut self, modules: &[u64]) -> bool
        ensures answer { result ≡ objects self.old modules.now }
        ensures kept { objects self.new ≡ objects self.old };
}

// Never objects.
#[derive(Clone, Copy, Debug, PartialEq, Eq)]
pub struct Never;

impl Veto for Never {
    ghost objects = { λ _ _. false };

    fn objects_to(&mut self, _modules: &[u64]) -> bool {
        false
    }
}

// Objects to a list that has a protected module.
#[derive(Clone, Copy, Debug, PartialEq, Eq)]
pub struct Protected<'p> {
    pub modules: &'p [u64],
}

impl<'p> Veto for Protected<'p> {
    ghost objects = { λ p. any_among p.modules.now };

    fn objects_to(&mut self, modules: &[u64]) -> bool {
        modules.iter().any(|m| self.modules.contains(m))
    }
}
