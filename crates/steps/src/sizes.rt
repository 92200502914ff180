// The symbols of a rule's terms with the values filled in (8).
ghost use Rattle.std.specs.Prelude.{◌≡◌, List, ℕ, ◌≤◌, length};
ghost use Rattle.octets.specs.Limits.{longest};
ghost use Rattle.lists.specs.Asks.{Asks, Promises, Asks₂, Promises₂};
ghost use Rattle.term.specs.Term.{Term};
ghost use Rattle.term.specs.Reader.{symbol_at, kind_of, term};
ghost use Rattle.protocol.specs.Protocol.{Fact, Rule, Protocol, fact, facts};
ghost use Rattle.protocol.specs.Places.{At, ReadAs};
ghost use Rattle.prepared.specs.Sections.{prepared_length};
ghost use Rattle.prepared.specs.Prepared.{slots_of, arities_of};
ghost use Rattle.steps.specs.Values.Parts.{fact_small, list_small, rule_small};
ghost use Rattle.steps.specs.Table.Laws.{RuleOf};
ghost use Rattle.steps.specs.Values.Weights.{leaf_weight, weight_of, size_in, term_small, small_to};

use prepared::{finding, list_places, sections};
use term::Symbol;

// "filled-in term over 256 symbols"; "Each tag counts as one symbol."
const MOST_FILLED_IN: usize = term::MOST_SYMBOLS;

const ONE_SYMBOL: usize = 1;

// The size of a value.
fn size_of(sizes: &[usize], n: usize) -> usize
    ensures { result ≡ size_in sizes.now n }
{
    sizes.get(n).copied().unwrap_or(ONE_SYMBOL)
}

// A variable weighs as much as its value, every other leaf one.
fn leaf_weight(t: usize, n: usize, sizes: &[usize]) -> usize
    ensures { result ≡ leaf_weight (size_in sizes.now) (kind_of t) n }
{
    if t == term::VARIABLE {
        return size_of(sizes, n);
    }
    ONE_SYMBOL
}

// One symbol: what it weighs, how many terms it takes, the place behind it.
fn one_weight(file: &[u8], arities: &[u8], at: usize, sizes: &[usize]) -> Option<(usize, u8, usize)>
    ensures { result ≡ weight_of (size_in sizes.now) (symbol_at file.now arities.now at) }
{
    let y = term::symbol_at(file, arities, at)?;
    match y {
        Symbol::Leaf(t, n, e) => Some((leaf_weight(t, n as usize, sizes), 0, e)),
        Symbol::Op(_, k, e) => Some((ONE_SYMBOL, k, e)),
    }
}

// The place behind the term at a place, if it has 256 symbols at most with values of these sizes filled in.
pub fn term_small(file: &[u8], arities: &[u8], at: usize, sizes: &[usize]) -> Option<usize>
    requires { Asks₂ (ReadAs (term file.now arities.now) at) × (length file.now ≤ longest) × ((v : ℕ) → size_in sizes.now v ≤ longest) }
    ensures { Promises₂ (ReadAs (term file.now arities.now) at) (λ (t : Term) (e : ℕ). result ≡ small_to (term_small (size_in sizes.now) t) e) }
{
    let mut i = at;
    let mut pending: usize = 1;
    let mut sum: usize = 0;
    // A while: each symbol says how many terms are still to come.
    while 0 < pending {
        let (a, k, e) = one_weight(file, arities, i, sizes)?;
        sum += a;
        if MOST_FILLED_IN < sum {
            return None;
        }
        pending = pending - 1 + k as usize;
        i = e;
    }
    Some(i)
}

// The place behind the last term of the fact at a place, if all are small enough, each found behind the one before.
pub fn fact_small(p: &[u8], place: usize, sizes: &[usize]) -> Option<usize>
    requires { Asks₂ (ReadAs (fact p.now (slots_of p.now) (arities_of p.now)) place) × (length p.now ≡ prepared_length) × ((v : ℕ) → size_in sizes.now v ≤ longest) }
    ensures { Promises₂ (ReadAs (fact p.now (slots_of p.now) (arities_of p.now)) place) (λ (f : Fact) (e : ℕ). result ≡ small_to (fact_small (size_in sizes.now) f) e) }
{
    let terms = finding::arity_of(p, finding::symbol_of(p, place));
    let mut at = finding::term_at(p, place, 0);
    for _ in 0..terms {
        at = term_small(p, &p[..sections::ARITIES], at, sizes)?;
    }
    Some(at)
}

// Whether all facts of the list at a place are, each found behind the one before.
pub fn list_small(p: &[u8], place: usize, sizes: &[usize]) -> bool
    requires { Asks (At (facts p.now (slots_of p.now) (arities_of p.now)) place) × (length p.now ≡ prepared_length) × ((v : ℕ) → size_in sizes.now v ≤ longest) }
    ensures { Promises (At (facts p.now (slots_of p.now) (arities_of p.now)) place) (λ (fs : List Fact). result ≡ list_small (size_in sizes.now) fs) }
{
    let facts = protocol::places::count_of(p, place);
    let mut at = finding::first_fact(p, place);
    for _ in 0..facts {
        match fact_small(p, at, sizes) {
            Some(e) => at = e,
            None => return false,
        }
    }
    true
}

// Whether all terms of the rule of a number are: premises, actions, conclusions.
pub fn rule_small(p: &[u8], number: usize, sizes: &[usize]) -> bool
    requires { Asks₂ (RuleOf p.now number) × ((v : ℕ) → size_in sizes.now v ≤ longest) }
    ensures { Promises₂ (RuleOf p.now number) (λ (P : Protocol) (u : Rule). result ≡ rule_small (size_in sizes.now) u) }
{
    for j in 0..protocol::figures::LISTS {
        if !list_small(p, list_places::list_place(p, number, j), sizes) {
            return false;
        }
    }
    true
}
