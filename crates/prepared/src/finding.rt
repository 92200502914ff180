// The rule of a number in a prepared protocol.
ghost use Rattle.std.specs.Prelude.{◌≡◌, ◌≤◌, ◌<◌, length, get_or};
ghost use Rattle.lists.specs.Asks.{Asks, Promises};
ghost use Rattle.octets.specs.Limits.{longest};
ghost use Rattle.number.specs.Reading.{below};
ghost use Rattle.protocol.specs.Figures.{symbol_count};
ghost use Rattle.protocol.specs.Protocol.{Protocol};
ghost use Rattle.protocol.specs.Places.{place_of, value_of, list_place, term_place};
ghost use Rattle.prepared.specs.Sections.{rule_count, body_length};
ghost use Rattle.prepared.specs.Prepared.{slots_of, arities_of, place_at, Body, prepared_fact, fact_place_in};
ghost use Rattle.prepared.specs.Finding.{Finds};

use crate::{pairs, sections};
use protocol::walks::RuleText;

// The place in the table; 0 for none. It cannot fail, and its clause is the table's own number; `rule_place` gives the Option.
pub fn place_of(p: &[u8], number: usize) -> usize
    requires { (number < rule_count) × (body_length ≤ length p.now) }
    ensures { result ≡ place_at p.now number }
{
    pairs::read(p, sections::PLACES + sections::PLACE_BYTES * number)
}

// The place of the rule of a number.
pub fn rule_place(p: &[u8], number: usize) -> Option<usize>
    requires { Asks (Body p.now) }
    ensures { Promises (Body p.now) (λ (P : Protocol). Finds p.now P number result) }
{
    if sections::RULE_COUNT <= number {
        return None;
    }
    let place = place_of(p, number);
    if place == 0 { None } else { Some(place) }
}

// What the rules of a prepared protocol are read by: its bytes, and its two tables of arities.
fn text_of(p: &[u8]) -> RuleText<'_>
    requires { body_length ≤ length p.now }
    ensures { (result.file.now ≡ p.now) × (result.arities.now ≡ slots_of p.now) × (result.ars.now ≡ arities_of p.now) }
{
    RuleText {
        file: p,
        arities: &p[..sections::ARITIES],
        ars: &p[sections::ARITIES..sections::LINEARS],
    }
}

// The place of a list of the rule at a place: 0 premises, 1 actions, 2 conclusions.
pub fn list_at(p: &[u8], place: usize, list: usize) -> usize
    requires { (body_length ≤ length p.now) × (length p.now ≤ longest) }
    ensures { result ≡ list_place p.now (slots_of p.now) (arities_of p.now) place list }
{
    protocol::places::list_at(&text_of(p), place, list)
}

// The place of the first fact of the list at a place.
pub fn first_fact(p: &[u8], list: usize) -> usize
    ensures { result ≡ fact_place_in p.now list 0 }
{
    protocol::places::first_fact(p, list)
}

// The place behind the fact at a place.
pub fn fact_end(p: &[u8], fact: usize) -> usize
    requires { (body_length ≤ length p.now) × (length p.now ≤ longest) }
    ensures { result ≡ place_of (prepared_fact p.now fact) }
{
    protocol::places::fact_end(&text_of(p), fact)
}

// The symbol of the fact at a place.
pub fn symbol_of(p: &[u8], fact: usize) -> usize
    requires { body_length ≤ length p.now }
    ensures { result ≡ value_of (below p.now (length (arities_of p.now)) fact) }
{
    protocol::places::symbol_of(p, &p[sections::ARITIES..sections::LINEARS], fact)
}

// The arity of a fact symbol.
pub fn arity_of(p: &[u8], symbol: usize) -> usize
    requires { (symbol < symbol_count) × (body_length ≤ length p.now) }
    ensures { result ≡ get_or (arities_of p.now) symbol 0 }
{
    usize::from(p[sections::ARITIES + symbol])
}

// The place of term j of the fact at a place.
pub fn term_at(p: &[u8], fact: usize, j: usize) -> usize
    requires { (body_length ≤ length p.now) × (length p.now ≤ longest) }
    ensures { result ≡ term_place p.now (slots_of p.now) (arities_of p.now) fact j }
{
    protocol::places::term_at(&text_of(p), fact, j)
}
