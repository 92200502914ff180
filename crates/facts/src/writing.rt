// The bytes of a fact at a place of a prepared protocol, with the values of a node filled in: of canonical forms, or as it stands.
ghost use Rattle.std.specs.Prelude.{◌≡◌, ◌<◌, List, length, get_or};
ghost use Rattle.number.specs.Reading.{below};
ghost use Rattle.protocol.specs.Figures.{symbol_count};
ghost use Rattle.protocol.specs.Places.{value_of, term_place};
ghost use Rattle.prepared.specs.Sections.{prepared_length};
ghost use Rattle.prepared.specs.Prepared.{slots_of, arities_of};
ghost use Rattle.steps.specs.Facts.{filled_fact};
ghost use Rattle.protocol.specs.Protocol.{Fact};
ghost use Rattle.lists.specs.Asks.{Asks₂, Promises₂};
ghost use Rattle.term.specs.Term.{Term};
ghost use Rattle.facts.specs.Writing.{Put, WantedJob, wanted_bytes};

use prepared::{finding, sections};

// The bytes that are kept free for a fact: as many terms as it can have, and behind them a product.
pub const FACT_ROOM: usize = (protocol::figures::MOST_FACT_ARITY + 1) * term::TERM_ROOM;

// What is written of a fact: the canonical forms of all arguments, or of the one of a number, from 0; or all arguments as they stand.
#[derive(Clone, Copy)]
pub enum Wanted {
    All,
    One(usize),
    Plain,
}

// The arguments of the fact at a place of p: where the first stands, and how many there are.
fn arguments(p: &[u8], place: usize) -> (usize, usize)
    requires { (length p.now ≡ prepared_length) × (value_of (below p.now (length (arities_of p.now)) place) < symbol_count) }
    ensures at { result.0 ≡ term_place p.now (slots_of p.now) (arities_of p.now) place 0 }
    ensures count { result.1 ≡ get_or (arities_of p.now) (value_of (below p.now (length (arities_of p.now)) place)) 0 }
{
    let symbol = finding::symbol_of(p, place);
    (finding::term_at(p, place, 0), finding::arity_of(p, symbol))
}

// Writes the canonical bytes of the fact at a place of p, filled in with the values, into the part of the output that starts at o; the
// place behind them. The value of variable i lies in s from the i-th of `starts` up to the next.
pub fn fact_into(
    out: &mut [u8],
    o: usize,
    p: &[u8],
    place: usize,
    s: &[u8],
    starts: &[usize],
) -> usize
    requires { Asks₂ (WantedJob p.now s.now starts.now place (length out.old) o Wanted.All) }
    ensures { Promises₂ (WantedJob p.now s.now starts.now place (length out.old) o Wanted.All) (λ (vs : List Term) (f : Fact). Put out.old o out.new result (wanted_bytes Wanted.All (filled_fact vs f))) }
{
    let (at, k) = arguments(p, place);
    canonical::canonical_into(out, o, p, at, k, &p[..sections::ARITIES], s, starts).o
}

// Writes the bytes of that fact as it stands.
pub fn plain_into(
    out: &mut [u8],
    o: usize,
    p: &[u8],
    place: usize,
    s: &[u8],
    starts: &[usize],
) -> usize
    requires { Asks₂ (WantedJob p.now s.now starts.now place (length out.old) o Wanted.Plain) }
    ensures { Promises₂ (WantedJob p.now s.now starts.now place (length out.old) o Wanted.Plain) (λ (vs : List Term) (f : Fact). Put out.old o out.new result (wanted_bytes Wanted.Plain (filled_fact vs f))) }
{
    let (at, k) = arguments(p, place);
    canonical::filled_into(out, o, p, at, k, &p[..sections::ARITIES], s, starts).o
}

// Writes the canonical bytes of argument j of that fact.
pub fn argument_into(
    out: &mut [u8],
    o: usize,
    p: &[u8],
    place: usize,
    j: usize,
    s: &[u8],
    starts: &[usize],
) -> usize
    requires { Asks₂ (WantedJob p.now s.now starts.now place (length out.old) o (Wanted.One j)) }
    ensures { Promises₂ (WantedJob p.now s.now starts.now place (length out.old) o (Wanted.One j)) (λ (vs : List Term) (f : Fact). Put out.old o out.new result (wanted_bytes (Wanted.One j) (filled_fact vs f))) }
{
    let at = finding::term_at(p, place, j);
    canonical::canonical_into(out, o, p, at, 1, &p[..sections::ARITIES], s, starts).o
}

// Writes the bytes that are wanted.
pub fn wanted_into(
    out: &mut [u8],
    o: usize,
    p: &[u8],
    place: usize,
    wanted: Wanted,
    s: &[u8],
    starts: &[usize],
) -> usize
    requires { Asks₂ (WantedJob p.now s.now starts.now place (length out.old) o wanted) }
    ensures { Promises₂ (WantedJob p.now s.now starts.now place (length out.old) o wanted) (λ (vs : List Term) (f : Fact). Put out.old o out.new result (wanted_bytes wanted (filled_fact vs f))) }
{
    match wanted {
        Wanted::All => fact_into(out, o, p, place, s, starts),
        Wanted::One(j) => argument_into(out, o, p, place, j, s, starts),
        Wanted::Plain => plain_into(out, o, p, place, s, starts),
    }
}
