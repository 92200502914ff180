// A guard against an entry of its symbol.
ghost use Rattle.std.specs.Prelude.{◌≡◌, List, ◌||◌, ℕ, ◌+◌, ◌*◌, ◌≤◌, ◌<◌, length, get_or, eqb};
ghost use Rattle.lists.specs.Asks.{Promises};
ghost use Rattle.octets.specs.Limits.{longest};
ghost use Rattle.protocol.specs.Figures.{most_fact_arity};
ghost use Rattle.property.specs.Figures.{most_scope};
ghost use Rattle.judge.specs.Bindings.{value, is_new, put, finish, all_up};
ghost use Rattle.judge.specs.Judging.{Fitting, Matching};

use crate::figures;
use crate::reading::Coded;

// A class number or a node number for each variable, and how many are bound.
#[derive(Clone, Copy)]
pub struct Bindings {
    pub values: [u32; figures::SCOPE],
    pub count: usize,
}

// The class number that a code stands for.
pub fn class_of(base: u32, values: &[u32; figures::SCOPE], code: u32) -> usize
    ensures { result ≡ value base values.now code }
{
    let t = code as usize;
    if t < figures::SCOPE {
        return values[t] as usize;
    }
    base as usize + (t - figures::SCOPE)
}

// The code t is a variable's that is none of the n that are bound.
fn is_new(n: usize, t: usize) -> bool
    ensures { result ≡ is_new n t }
{
    (n <= t) & (t < figures::SCOPE)
}

// Whether each term that is no new variable has the class of the entry's argument; n variables are bound. The arguments begin at p.
pub fn agree(
    fact: &Coded,
    classes: &[u32],
    p: usize,
    values: &[u32; figures::SCOPE],
    n: usize,
    base: u32,
) -> bool
    requires { (fact.now.count ≤ most_fact_arity) × (p + fact.now.count ≤ length classes.now) }
    ensures { result ≡ all_up (λ j. is_new n (get_or fact.now.codes j 0) || eqb (value base values.now (get_or fact.now.codes j 0)) (get_or classes.now (p + j) 0)) fact.now.count }
{
    for j in 0..fact.count {
        let code = fact.codes[j];
        let v = class_of(base, values, code);
        let w = classes[p + j] as usize;
        let same = is_new(n, code as usize) | (v == w);
        if !same {
            return false;
        }
    }
    true
}

// A number to a variable, unless it is one of the n that are bound.
fn put(values: &mut [u32; figures::SCOPE], n: usize, t: usize, v: u32)
    ensures { values.new ≡ put n t v values.old }
{
    if is_new(n, t) {
        values[t] = v;
    }
}

// The entry's arguments to the new variables, from the last term to the first: the first occurrence stays.
fn bind(values: &mut [u32; figures::SCOPE], n: usize, fact: &Coded, classes: &[u32], p: usize)
    requires { (fact.now.count ≤ most_fact_arity) × (p + fact.now.count ≤ length classes.now) }
    ensures { values.new ≡ finish (λ j. get_or fact.now.codes j 0) (λ j. get_or classes.now (p + j) 0) n fact.now.count values.old }
{
    for j in (0..fact.count).rev() {
        put(values, n, fact.codes[j] as usize, classes[p + j]);
    }
}

// The value of a variable. Of what is no variable nothing is promised, and a formula that is fit never asks.
pub fn slot(values: &[u32; figures::SCOPE], t: usize) -> usize
    ensures { t < most_scope → result ≡ get_or values.now t 0 }
{
    if t < figures::SCOPE {
        return values[t] as usize;
    }
    0
}

// Where entry e of a node is the guard's fact, the values with those of the new variables. What is known is compared before anything is bound.
pub fn match_guard(
    fact: &Coded,
    classes: &[u32],
    base: u32,
    node: usize,
    e: usize,
    bound: &Bindings,
) -> Option<[u32; figures::SCOPE]>
    requires { (fact.now.count ≤ most_fact_arity) × (node + 1 < longest) × (most_fact_arity * (e + 1) ≤ length classes.now) }
    ensures { (symbols : List ℕ) → get_or symbols e 0 ≡ fact.now.symbol → Promises (Fitting bound.now.count fact.now) (Matching symbols classes.now base bound.now.values node e result) }
{
    let n = bound.count;
    let p = figures::ARITY * e;
    let number = node + 1;
    let timed = (n <= fact.time) | (slot(&bound.values, fact.time) == number);
    if !(timed & agree(fact, classes, p, &bound.values, n, base)) {
        return None;
    }
    let mut values = bound.values;
    bind(&mut values, n, fact, classes, p);
    put(&mut values, n, fact.time, number as u32);
    let all = agree(fact, classes, p, &values, figures::SCOPE, base);
    if (slot(&values, fact.time) == number) & all {
        return Some(values);
    }
    None
}
