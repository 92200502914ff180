// The places in a rule: its lists, their facts, their terms; its variables and their sorts. Where nothing stands the answer is 0, as the
// clauses say (`place_of`, `value_of`): no function here may fail, for its callers ask only of rules that were read.
ghost use Rattle.std.specs.Prelude.{◌≡◌, ◌≤◌, length};
ghost use Rattle.octets.specs.Limits.{longest};
ghost use Rattle.protocol.specs.Figures.{fact_limit, variable_limit};
ghost use Rattle.number.specs.Reading.{below};
ghost use Rattle.protocol.specs.Protocol.Text.{fact_in};
ghost use Rattle.protocol.specs.Places.{place_of, value_of, sort_of, list_place, term_place};
ghost use Rattle.protocol.specs.Places.Ends.{end_of, sort_from};

use crate::walks::{NOTHING, RuleText};
use crate::{figures, walks};

// The end of a walk; 0 for a fault.
fn end_of(r: Option<(usize, bool)>) -> usize
    ensures { result ≡ end_of r }
{
    match r {
        Some((e, _)) => e,
        None => 0,
    }
}

// A number below n at a place; 0 where there is none.
fn value_below(file: &[u8], at: usize, n: usize) -> usize
    ensures { result ≡ value_of (below file.now n at) }
{
    match number::below(file, at, n) {
        Some((v, _)) => v as usize,
        None => 0,
    }
}

// How many variables the rule at a place has.
pub fn variables_of(file: &[u8], at: usize) -> usize
    ensures { result ≡ value_of (below file.now variable_limit at) }
{
    value_below(file, at, figures::VARIABLE_LIMIT)
}

fn sort_from(file: &[u8], at: usize, v: u32) -> usize
    ensures { result ≡ value_of (sort_from file.now v at) }
{
    match walks::sorts_end(file, at, v) {
        Some((_, e)) => value_below(file, e, figures::SORTS),
        None => 0,
    }
}

// The sort of variable v of the rule at a place: 0 message, 1 fresh, 2 public.
pub fn sort_of(file: &[u8], at: usize, v: u32) -> usize
    ensures { result ≡ value_of (sort_of file.now at v) }
{
    match number::below(file, at, figures::VARIABLE_LIMIT) {
        Some((_, e)) => sort_from(file, e, v),
        None => 0,
    }
}

// The place of a list of the rule at a place: 0 premises, 1 actions, 2 conclusions.
pub fn list_at(x: &RuleText, at: usize, list: usize) -> usize
    requires { length x.now.file.now ≤ longest }
    ensures { result ≡ list_place x.now.file.now x.now.arities.now x.now.ars.now at list }
{
    match walks::sorts_at(x.file, at) {
        Some((_, e)) => end_of(walks::some_lists(x, e, list, NOTHING)),
        None => 0,
    }
}

// How many facts the list at a place has.
pub fn count_of(file: &[u8], at: usize) -> usize
    ensures { result ≡ value_of (below file.now fact_limit at) }
{
    value_below(file, at, figures::FACT_LIMIT)
}

// The place of the first fact of the list at a place, behind the count.
pub fn first_fact(file: &[u8], at: usize) -> usize
    ensures { result ≡ place_of (below file.now fact_limit at) }
{
    match number::below(file, at, figures::FACT_LIMIT) {
        Some((_, e)) => e,
        None => 0,
    }
}

// The place behind the fact at a place.
pub fn fact_end(x: &RuleText, at: usize) -> usize
    requires { length x.now.file.now ≤ longest }
    ensures { result ≡ place_of (fact_in x.now at) }
{
    end_of(walks::one_fact(x, at, NOTHING))
}

// The symbol of the fact at a place.
pub fn symbol_of(file: &[u8], ars: &[u8], at: usize) -> usize
    ensures { result ≡ value_of (below file.now (length ars.now) at) }
{
    value_below(file, at, ars.len())
}

// The place of term j of the fact at a place.
pub fn term_at(x: &RuleText, at: usize, j: usize) -> usize
    requires { length x.now.file.now ≤ longest }
    ensures { result ≡ term_place x.now.file.now x.now.arities.now x.now.ars.now at j }
{
    match number::below(x.file, at, x.ars.len()) {
        Some((_, e)) => {
            if j == 0 {
                return e;
            }
            end_of(walks::rule_terms(x, e, j, NOTHING))
        }
        None => 0,
    }
}
