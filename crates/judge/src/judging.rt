// The judge of a formula and the walk of a quantifier.
ghost use Rattle.std.specs.Prelude.{◌≡◌, List, [], not, ℕ, ◌≤◌};
ghost use Rattle.lists.specs.Asks.{Asks, Promises, Asks₂, Promises₂, Asks₃, Promises₃};
ghost use Rattle.lists.specs.Choice.{pick};
ghost use Rattle.protocol.specs.Figures.{most_fact_arity};
ghost use Rattle.property.specs.Formula.{Formula};
ghost use Rattle.property.specs.Meaning.{Trace};
ghost use Rattle.property.specs.Layout.{equal_at, times_at, atom_at};
ghost use Rattle.property.specs.Judge.{judge};
ghost use Rattle.property.specs.Judge.Numbers.{numbers};
ghost use Rattle.judge.specs.Tables.{Shape, trace_of};
ghost use Rattle.judge.specs.Judging.{Fits, Property, AtomIs, Bodied, Fitting, AtomSaid, Shaped, OccursIn, AtomSaidIn, SaysIn, WalkedIn};
ghost use Rattle.judge.specs.Folding.{join};

use crate::entries::Tables;
use crate::matching::Bindings;
use crate::reading::{Coded, Guard, Num};
use crate::{entries, figures, matching, reading, skipping};

// The truth of a formula, and the place behind it.
#[derive(Clone, Copy)]
pub struct Judged {
    pub truth: bool,
    pub next: usize,
}

// Whether some entry is the fact at its time; all its variables are bound.
fn occurs(fact: &Coded, tables: Tables, bound: &Bindings) -> bool
    requires { Shaped tables × (fact.now.count ≤ most_fact_arity) }
    ensures { Promises (Fitting bound.now.count fact.now) (OccursIn tables.entry bound.now.values result) }
{
    let values = &bound.values;
    let time = matching::slot(values, fact.time);
    let count = entries::total(tables.starts);
    let mut node = 0;
    for e in 0..count {
        if tables.symbols[e] as usize == fact.symbol {
            node = entries::node_of(tables.starts, node, e);
            let p = figures::ARITY * e;
            let same = matching::agree(
                fact,
                tables.classes,
                p,
                values,
                figures::SCOPE,
                tables.base,
            );
            if (time == node + 1) & same {
                return true;
            }
        }
    }
    false
}

// Two terms: whether their classes are equal.
fn equal(file: &[u8], at: usize, base: u32, bound: &Bindings) -> Judged
    ensures { (table : List ℕ) (tr : List ℕ → Trace ℕ) → Promises (AtomIs table (λ ars. equal_at file.now at) bound.now.count) (AtomSaid tr base bound.now.values result) }
{
    let t = reading::term(file, at);
    let u = reading::term(file, t.next);
    let x = matching::class_of(base, &bound.values, t.value as u32);
    let y = matching::class_of(base, &bound.values, u.value as u32);
    Judged {
        truth: x == y,
        next: u.next,
    }
}

// Two time variables: whether the first is earlier, or they are the same.
fn times(file: &[u8], at: usize, order: bool, bound: &Bindings) -> Judged
    ensures { (table : List ℕ) (tr : List ℕ → Trace ℕ) (base : ℕ) → Promises (AtomIs table (λ ars. times_at file.now order at) bound.now.count) (AtomSaid tr base bound.now.values result) }
{
    let i = reading::read(file, at);
    let j = reading::read(file, i.next);
    let x = matching::slot(&bound.values, i.value);
    let y = matching::slot(&bound.values, j.value);
    Judged {
        truth: (order & (x < y)) | (!order & (x == y)),
        next: j.next,
    }
}

// The atom behind a tag, as an odd tag asserts it.
fn atom(file: &[u8], tag: Num, arities: &[u8], tables: Tables, bound: &Bindings) -> Judged
    requires { Shaped tables }
    ensures { Promises (AtomIs arities.now (λ ars. atom_at file.now ars tag.value tag.next) bound.now.count) (AtomSaidIn tables.entry bound.now.values result) }
{
    if tag.value < property::figures::BEFORE {
        return equal(file, tag.next, tables.base, bound);
    }
    if tag.value < property::figures::ACTION {
        return times(file, tag.next, tag.value < figures::SAME_TIME, bound);
    }
    let fact = reading::read_fact(file, tag.next, arities);
    let found = occurs(&fact, tables, bound);
    Judged {
        truth: found,
        next: fact.next,
    }
}

// x and y, or x or y.
fn join(every: bool, x: bool, y: bool) -> bool
    ensures { result ≡ join every x y }
{
    if every { x & y } else { x | y }
}

// x as it is, or denied.
fn sign(asserted: bool, x: bool) -> bool
    ensures { result ≡ pick asserted x (not x) }
{
    if asserted { x } else { !x }
}

// Whether the formula at a place is true, and the place behind it. Both sides of and, or are judged.
#[cycle(judge_walk)]
fn judge(file: &[u8], at: usize, arities: &[u8], tables: Tables, bound: &Bindings) -> Judged
    requires { Asks (Fits file.now arities.now at bound.now.count) × Shaped tables }
    ensures { Promises (Fits file.now arities.now at bound.now.count) (SaysIn tables.entry bound.now.values result) }
{
    let tag = reading::read(file, at);
    if tag.value == property::figures::FALSE {
        return Judged {
            truth: false,
            next: tag.next,
        };
    }
    if tag.value < property::figures::AND {
        let a = atom(file, tag, arities, tables, bound);
        let truth = sign(tag.value % figures::SIGNS == figures::ASSERTS, a.truth);
        return Judged {
            truth,
            next: a.next,
        };
    }
    if tag.value < property::figures::EXISTS {
        let i = tag.next;
        let x = judge(file, i, arities, tables, bound);
        let y = judge(file, x.next, arities, tables, bound);
        let truth = join(tag.value == property::figures::AND, x.truth, y.truth);
        return Judged {
            truth,
            next: y.next,
        };
    }
    let guard = reading::read_guard(file, tag.next, arities, tag.value == figures::EVERY);
    walk(file, &guard, arities, tables, bound)
}

// The quantifier of a guard: the guard is compared with every entry of every node, in order, and the body judged once for each match. Where
// no entry matches, the body is passed over for the place behind it.
#[cycle(judge_walk)]
fn walk(file: &[u8], guard: &Guard, arities: &[u8], tables: Tables, bound: &Bindings) -> Judged
    requires { Asks₃ (Bodied file.now arities.now guard.now bound.now.count) × Shaped tables × (guard.now.fact.count ≤ most_fact_arity) }
    ensures { Promises₃ (Bodied file.now arities.now guard.now bound.now.count) (WalkedIn tables.entry guard.now.every bound.now.values result) }
{
    let count = bound.count + guard.fresh;
    let total = entries::total(tables.starts);
    let mut truth = guard.every;
    let mut next = None;
    let mut node = 0;
    for e in 0..total {
        if tables.symbols[e] as usize == guard.fact.symbol {
            node = entries::node_of(tables.starts, node, e);
            if let Some(values) = matching::match_guard(
                &guard.fact,
                tables.classes,
                tables.base,
                node,
                e,
                bound,
            ) {
                let inner = Bindings { values, count };
                let i = guard.fact.next;
                let r = judge(file, i, arities, tables, &inner);
                truth = join(guard.every, truth, r.truth);
                next = Some(r.next);
            }
        }
    }
    let behind = match next {
        Some(k) => k,
        None => skipping::skip(file, guard.fact.next, arities),
    };
    Judged {
        truth,
        next: behind,
    }
}

// Whether the property holds of the trace.
pub fn holds(
    file: &[u8],
    arities: &[u8],
    starts: &[u32],
    symbols: &[u32],
    classes: &[u32],
    base: u32,
) -> bool
    requires { Asks₂ (Property file.now arities.now) × Shape starts.now symbols.now classes.now }
    ensures { Promises₂ (Property file.now arities.now) (λ (ars : List ℕ) (φ : Formula). result ≡ judge (numbers base) (trace_of ars symbols.now classes.now starts.now) [] φ) }
{
    let bound = Bindings {
        values: [0; figures::SCOPE],
        count: 0,
    };
    let tables = Tables {
        starts,
        symbols,
        classes,
        base,
    };
    judge(file, 0, arities, tables, &bound).truth
}
