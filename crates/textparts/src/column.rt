// The columns of the fields.
ghost use Rattle.std.specs.Prelude.{◌≡◌};
ghost use Rattle.textparts.specs.Places.{line_column};

use tables::thing::{Field, Thing};

// The first column of a field in the line of a thing, from 1: 1 where the line does not have it.
pub fn line_column(thing: Thing, field: Field) -> usize
    ensures { result ≡ line_column thing field }
{
    match (thing, field) {
        (Thing::Header, Field::Runtime) => 20,
        (Thing::Module(_), Field::Flags) => 2,
        (Thing::Module(_), Field::Namespace) => 8,
        (Thing::Module(_), Field::Wrapper) => 14,
        (Thing::Module(_), Field::Wrap) => 20,
        (Thing::Item(_, _, _), Field::Number) => 2,
        (Thing::Export(_, _), Field::ExportedSymbol) => 2,
        (Thing::Export(_, _), Field::Name) => 15,
        (Thing::Partial(_, _), Field::Name) => 3,
        (Thing::Entry(_), Field::Root) => 2,
        (Thing::Entry(_), Field::Flags) => 8,
        (Thing::Site(_, _), Field::Importer) => 2,
        (Thing::Site(_, _), Field::Target) => 8,
        (Thing::Site(_, _), Field::Flags) => 14,
        (Thing::Symbol(_), Field::Owner) => 2,
        (Thing::Symbol(_), Field::Link) => 8,
        (Thing::Symbol(_), Field::Alias) => 14,
        (Thing::Symbol(_), Field::Flags) => 20,
        _ => 1,
    }
}
