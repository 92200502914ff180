// The walks over a rule: its terms, its facts, its lists. Each tells the place behind, and whether what is looked for stands in them.
ghost use Rattle.std.specs.Prelude.{◌≡◌, ◌≤◌, ◌<◌, length, ℕ, Bool, false, Option};
ghost use Rattle.octets.specs.Limits.{longest};
ghost use Rattle.term.specs.Tags.{variable_tag};
ghost use Rattle.protocol.specs.Figures.{list_count};
ghost use Rattle.number.specs.Groups.{number_limit};
ghost use Rattle.number.specs.Reading.{many, as_read, seen};
ghost use Rattle.lists.specs.Lists.{any_by};
ghost use Rattle.protocol.specs.Protocol.Walks.{walks_on, asks, fact_from, sorts_from, sorts_at, ended, closed};
ghost use Rattle.protocol.specs.Protocol.Text.{term_in, fact_in, facts_in, layout_in, rule_in, leaf_for, asks_for, rule_asks_for};

use crate::figures;

// Where rules are read: the file, and the arities of its functions and of its fact symbols.
#[derive(Clone, Copy)]
pub struct RuleText<'a> {
    pub file: &'a [u8],
    pub arities: &'a [u8],
    pub ars: &'a [u8],
}

// What is looked for: a leaf of one of the kinds 0 to 2, its number from lo on and below hi; or, of kind 3, such a fact symbol. The kind is a
// number, as the definition `asks` of the clauses has it.
#[derive(Clone, Copy)]
pub struct Wanted {
    pub kind: usize,
    pub lo: usize,
    pub hi: usize,
}

// What no rule has, for a walk that is only to tell the place behind.
pub const NOTHING: Wanted = Wanted {
    kind: term::VARIABLE,
    lo: 0,
    hi: 0,
};

// n steps, each from the place behind the one before: the place behind them all, and whether one of them found what is looked for.
fn repeated<F: Fn(usize) -> Option<(usize, bool)>>(
    at: usize,
    n: usize,
    step: F,
) -> Option<(usize, bool)>
    requires { F.IsAlwaysCallable step }
    ensures { (g : ℕ → Option (ℕ × Bool)) → ((i : ℕ) (r : Option (ℕ × Bool)) → F.post step i r → r ≡ g i) → result ≡ walks_on g n false at }
{
    let mut i = at;
    let mut found = false;
    for _j in 0..n {
        let (e, h) = step(i)?;
        i = e;
        found |= h;
    }
    Some((i, found))
}

// A term of a rule, 64 symbols at most.
fn rule_term(x: &RuleText, at: usize, w: Wanted) -> Option<(usize, bool)>
    requires { length x.now.file.now ≤ longest }
    ensures { result ≡ seen (leaf_for w) (term_in x.now at) }
{
    let leaves = term::Leaves {
        kind: w.kind,
        lo: w.lo,
        hi: w.hi,
    };
    let walk = term::walk_term(x.file, x.arities, at, leaves)?;
    if walk.size < figures::RULE_SYMBOL_LIMIT {
        return Some((walk.end, walk.hit));
    }
    None
}

// n terms of a rule. Always inlined, as is one_fact: an Option of a pair that a call hands back lies in memory, which costs more than the call.
#[inline(always)]
pub fn rule_terms(x: &RuleText, at: usize, n: usize, w: Wanted) -> Option<(usize, bool)>
    requires { length x.now.file.now ≤ longest }
    ensures { result ≡ seen (any_by (leaf_for w)) (many (term_in x.now) n at) }
{
    repeated(at, n, |i| rule_term(x, i, w))
}

// The terms of a fact of the symbol y.
fn fact_from(x: &RuleText, y: usize, at: usize, w: Wanted) -> Option<(usize, bool)>
    requires { (length x.now.file.now ≤ longest) × (y < length x.now.ars.now) }
    ensures { result ≡ seen (asks_for w) (fact_from x.now.file.now x.now.arities.now x.now.ars.now y at) }
{
    let (e, h) = rule_terms(x, at, x.ars[y] as usize, w)?;
    if w.kind < figures::SYMBOL_KIND {
        return Some((e, h));
    }
    Some((e, !(y < w.lo) & (y < w.hi)))
}

// A fact.
#[inline(always)]
pub fn one_fact(x: &RuleText, at: usize, w: Wanted) -> Option<(usize, bool)>
    requires { length x.now.file.now ≤ longest }
    ensures { result ≡ seen (asks_for w) (fact_in x.now at) }
{
    let (y, e) = number::below(x.file, at, x.ars.len())?;
    fact_from(x, y as usize, e, w)
}

// n facts.
pub fn some_facts(x: &RuleText, at: usize, n: usize, w: Wanted) -> Option<(usize, bool)>
    requires { length x.now.file.now ≤ longest }
    ensures { result ≡ seen (any_by (asks_for w)) (many (fact_in x.now) n at) }
{
    repeated(at, n, |i| one_fact(x, i, w))
}

// A count and that many facts: the premises, the actions or the conclusions of a rule.
pub fn one_list(x: &RuleText, at: usize, w: Wanted) -> Option<(usize, bool)>
    requires { length x.now.file.now ≤ longest }
    ensures { result ≡ seen (any_by (asks_for w)) (facts_in x.now at) }
{
    let (n, e) = number::below(x.file, at, figures::FACT_LIMIT)?;
    some_facts(x, e, n as usize, w)
}

// n lists of facts.
pub fn some_lists(x: &RuleText, at: usize, n: usize, w: Wanted) -> Option<(usize, bool)>
    requires { length x.now.file.now ≤ longest }
    ensures { result ≡ seen (any_by (any_by (asks_for w))) (many (facts_in x.now) n at) }
{
    repeated(at, n, |i| one_list(x, i, w))
}

// The sorts of n variables, which begin at a place.
pub fn sorts_end(file: &[u8], at: usize, n: u32) -> Option<(u32, usize)>
    ensures { as_read result ≡ sorts_from file.now n at }
{
    let mut i = at;
    for _j in 0..n {
        let (_, e) = number::below(file, i, figures::SORTS)?;
        i = e;
    }
    Some((n, i))
}

// How many variables the rule at a place has, and the place of its premises.
pub fn sorts_at(file: &[u8], at: usize) -> Option<(u32, usize)>
    ensures { as_read result ≡ sorts_at file.now at }
{
    let (n, e) = number::below(file, at, figures::VARIABLE_LIMIT)?;
    sorts_end(file, e, n)
}

// The layout of a rule, and whether what is looked for stands in one of its facts.
pub fn one_layout(x: &RuleText, at: usize, w: Wanted) -> Option<(usize, bool)>
    requires { length x.now.file.now ≤ longest }
    ensures { result ≡ seen (rule_asks_for w) (layout_in x.now at) }
{
    let (_, e) = sorts_at(x.file, at)?;
    some_lists(x, e, figures::LISTS, w)
}

// The three lists of a rule of n variables: no variable from n on stands in them. The place behind them.
fn closed_lists(x: &RuleText, at: usize, n: usize) -> Option<usize>
    requires { length x.now.file.now ≤ longest }
    ensures { result ≡ closed (seen (any_by (any_by (asks variable_tag n number_limit))) (many (facts_in x.now) list_count at)) }
{
    let undeclared = Wanted {
        kind: term::VARIABLE,
        lo: n,
        hi: number::NUMBER_LIMIT,
    };
    let (e, h) = some_lists(x, at, figures::LISTS, undeclared)?;
    if h {
        return None;
    }
    Some(e)
}

// A rule: its layout, and each variable in it declared. The place behind it.
pub fn one_rule(x: &RuleText, at: usize) -> Option<usize>
    requires { length x.now.file.now ≤ longest }
    ensures { result ≡ ended (rule_in x.now at) }
{
    let (n, e) = sorts_at(x.file, at)?;
    closed_lists(x, e, n as usize)
}
