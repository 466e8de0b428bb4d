// The questions that every link table answers.
ghost use Rattle.std.specs.Prelude.{◌≡◌, length};
ghost use Rattle.std.specs.Option.{option_map};
ghost use Rattle.tables.specs.Value.{Meaning};
ghost use Rattle.tables.specs.Asked.{table_module, item_at, export_value, export_at, partial_at, table_entry, site_at, table_symbol};

use crate::parts::{EntryInfo, Export, ModuleInfo, Site, Symbol};
use crate::thing::{Field, ModuleList, Thing};

// A link table. It means a value and the places of its things; each question answers its part of that, or none beyond a
// count, and leaves the meaning as it was. A name lives as long as the table's storage, `'t`.
// A question takes `&mut self`, since a table may count its questions or read on demand: so each says that it has `kept` the
// meaning, and no type can say it. Module and item are two arguments, since each question takes the numbers of its own things.
pub trait LinkTable<'t> {
    // where a thing stands in a table of this kind
    type Place;

    ghost means: { Self → Meaning Self.Place };

    fn module_count(&mut self) -> usize
        ensures answer { result ≡ length (means self.old).table.modules }
        ensures kept { means self.new ≡ means self.old };

    fn entry_count(&mut self) -> usize
        ensures answer { result ≡ length (means self.old).table.entries }
        ensures kept { means self.new ≡ means self.old };

    fn symbol_count(&mut self) -> usize
        ensures answer { result ≡ length (means self.old).table.symbols }
        ensures kept { means self.new ≡ means self.old };

    fn runtime(&mut self) -> Option<u32>
        ensures answer { result ≡ (means self.old).table.runtime }
        ensures kept { means self.new ≡ means self.old };

    fn strict(&mut self) -> bool
        ensures answer { result ≡ (means self.old).table.strict }
        ensures kept { means self.new ≡ means self.old };

    fn module(&mut self, m: usize) -> Option<ModuleInfo>
        ensures answer { result ≡ table_module (means self.old).table m }
        ensures kept { means self.new ≡ means self.old };

    fn item(&mut self, list: ModuleList, m: usize, i: usize) -> Option<u32>
        ensures answer { result ≡ item_at (means self.old).table list m i }
        ensures kept { means self.new ≡ means self.old };

    fn export(&mut self, m: usize, i: usize) -> Option<Export<'t>>
        ensures answer { option_map export_value result ≡ export_at (means self.old).table m i }
        ensures kept { means self.new ≡ means self.old };

    fn partial(&mut self, m: usize, i: usize) -> Option<&'t [u8]>
        ensures answer { option_map (λ n. n.now) result ≡ partial_at (means self.old).table m i }
        ensures kept { means self.new ≡ means self.old };

    fn entry(&mut self, e: usize) -> Option<EntryInfo>
        ensures answer { result ≡ table_entry (means self.old).table e }
        ensures kept { means self.new ≡ means self.old };

    fn site(&mut self, e: usize, i: usize) -> Option<Site>
        ensures answer { result ≡ site_at (means self.old).table e i }
        ensures kept { means self.new ≡ means self.old };

    fn symbol(&mut self, s: usize) -> Option<Symbol>
        ensures answer { result ≡ table_symbol (means self.old).table s }
        ensures kept { means self.new ≡ means self.old };

    fn place_of(&mut self, thing: Thing, field: Field) -> Option<Self::Place>
        ensures answer { result ≡ (means self.old).place thing field }
        ensures kept { means self.new ≡ means self.old };
}
