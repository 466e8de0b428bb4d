// Questions to any table, answered in the words of the definitions: what a number that names nothing has is nothing.
// `kept` stands in each contract: a question may change its table, and no type says that the meaning stays.
#![tactic(auto)]

ghost use Rattle.std.specs.Prelude.{◌≡◌, Some, None, if◌then◌else◌};
ghost use Rattle.tables.specs.View.{view, module_at, symbol_at};
ghost use Rattle.tables.specs.Links.{linked, canon, endless, served};
ghost use Rattle.asks.specs.Walked.{ends_within};

use tables::parts::Symbol;
use tables::table::LinkTable;

// What stands for a symbol that is not there.
const NO_SYMBOL: Symbol = Symbol {
    owner: 0,
    link: 0,
    alias: None,
    flags: 0,
};

// The flags of module `m`; none where there is no such module.
pub fn flags_of<'t, T: LinkTable<'t>>(table: &mut T, m: usize) -> u32
    ensures answer { result ≡ (module_at (view (T.means table.old).table) m).flags }
    ensures kept { T.means table.new ≡ T.means table.old }
{
    table.module(m).map_or(0, |info| info.flags)
}

// Symbol `s`; where there is none, one without alias and flags, whose numbers are 0.
#[tactic(auto, using(crate::proofs::Read::symbol_told))]
pub fn symbol_of<'t, T: LinkTable<'t>>(table: &mut T, s: usize) -> Symbol
    ensures answer { result ≡ symbol_at (view (T.means table.old).table) s }
    ensures kept { T.means table.new ≡ T.means table.old }
{
    table.symbol(s).unwrap_or(NO_SYMBOL)
}

// Where a walk along links stops. No `Option` of a symbol: `canonical` answers where it stops, at the end or not.
#[derive(Clone, Copy, Debug, PartialEq, Eq)]
struct Stop {
    at: usize,
    // the symbol there links to itself
    ends: bool,
}

// Walks along the links from symbol `s`, to the end of the chain or else over as many links as said.
fn walk_links<'t, T: LinkTable<'t>>(table: &mut T, links: usize, s: usize) -> Stop
    ensures answer { result.at ≡ linked (view (T.means table.old).table) links s }
    ensures ends { result.ends ≡ ends_within (view (T.means table.old).table) links s }
    ensures kept { T.means table.new ≡ T.means table.old }
{
    let mut at = s;
    // a `for`: a closure would hold the table, and what it leaves of it is not known
    for _step in 0..links {
        let link = symbol_of(table, at).link as usize;
        if link == at {
            return Stop { at, ends: true };
        }
        at = link;
    }
    let ends = symbol_of(table, at).link as usize == at;
    Stop { at, ends }
}

// The end of the chain of links from symbol `s`. Where the chain has no end, it is the symbol after as many links as there
// are symbols.
#[tactic(auto, using(crate::proofs::Walks::canon_told))]
pub fn canonical<'t, T: LinkTable<'t>>(table: &mut T, s: usize) -> usize
    ensures answer { result ≡ canon (view (T.means table.old).table) s }
    ensures kept { T.means table.new ≡ T.means table.old }
{
    let symbols = table.symbol_count();
    walk_links(table, symbols, s).at
}

// Whether the chain of links from symbol `s` has come to its end after so many links. Who asks this of every symbol asks
// only once how many symbols there are.
pub fn ends_within<'t, T: LinkTable<'t>>(table: &mut T, links: usize, s: usize) -> bool
    ensures answer { result ≡ ends_within (view (T.means table.old).table) links s }
    ensures kept { T.means table.new ≡ T.means table.old }
{
    walk_links(table, links, s).ends
}

// The end of the chain of links from symbol `s`, if it has one.
#[tactic(auto, using(crate::proofs::Walks::end_told))]
pub fn end_of_chain<'t, T: LinkTable<'t>>(table: &mut T, s: usize) -> Option<usize>
    ensures answer { let t = view (T.means table.old).table in
        result ≡ (if endless t s then None else Some (canon t s)) }
    ensures kept { T.means table.new ≡ T.means table.old }
{
    let symbols = table.symbol_count();
    let Stop { at: end, ends } = walk_links(table, symbols, s);
    ends.then_some(end)
}

// The alias symbol of the end of the chain from symbol `s`, or else the end itself.
#[tactic(auto, unfolding(tables::specs::Links::served, tables::specs::Links::alias))]
pub fn served_symbol<'t, T: LinkTable<'t>>(table: &mut T, s: usize) -> usize
    ensures answer { result ≡ served (view (T.means table.old).table) s }
    ensures kept { T.means table.new ≡ T.means table.old }
{
    let end = canonical(table, s);
    symbol_of(table, end)
        .alias
        .map_or(end, |alias| alias as usize)
}
