// What stands before a quantifier's body: the sorts of its new variables, its guard, its time variable.
ghost use Rattle.std.specs.Prelude.{◌≡◌, List, ℕ, ◌≤◌, ◌<◌, length, drop, map};
ghost use Rattle.lists.specs.Asks.{Promises};
ghost use Rattle.lists.specs.Lists.{any_by};
ghost use Rattle.number.specs.Reading.{got, many};
ghost use Rattle.property.specs.Figures.{most_scope};
ghost use Rattle.property.specs.Formula.{Term};
ghost use Rattle.property.specs.Fit.{is_var, guarded};
ghost use Rattle.property.specs.Layout.{term_at, sort_at, scoped_at};
ghost use Rattle.property.specs.Walk.{sort_of, as_sort, as_sorts, in_guard, Tabled, GuardIs, HeadIs};

use crate::facts::{File, Guard};
use crate::terms::{AsSort, Sort};
use crate::{facts, figures, terms};

// How many variables are in scope with the new ones, the place behind, and whether the guard is as 5 asks.
#[derive(Clone, Copy)]
pub struct Opened {
    pub count: usize,
    pub end: usize,
    pub fits: bool,
}

// "each sort (0 message, 3 time)"
fn read_sort(f: &[u8], at: usize) -> Option<(Sort, usize)>
    ensures { as_sort result ≡ sort_at f.now at }
{
    let (v, e) = number::read_number(f, at)?;
    if v as usize == protocol::figures::MESSAGE_SORT {
        return Some((Sort::Message, e));
    }
    if v as usize == figures::TIME_SORT {
        return Some((Sort::Time, e));
    }
    None
}

// As many sorts as there is room for, and the place behind them.
fn read_sorts<S: AsSort>(f: &[u8], at: usize, sorts: &mut [S]) -> Option<usize>
    ensures { as_sorts result (map S.meaning sorts.new) ≡ many (sort_at f.now) (length sorts.new) at }
{
    let mut i = at;
    for s in sorts.iter_mut() {
        let (sort, e) = read_sort(f, i)?;
        *s = S::of(sort);
        i = e;
    }
    Some(i)
}

// Whether one of the guard's terms is the variable x.
fn is_among(f: &[u8], guard: Guard, x: usize) -> bool
    ensures { (ts : List Term) (e : ℕ) → many (term_at f.now) guard.count guard.terms ≡ got ts e → result ≡ any_by (is_var x) ts }
{
    match terms::any_term(f, guard.terms, guard.count, |y| y == Some(x)) {
        Some((_, found)) => found,
        None => false,
    }
}

// The new variable x is in its guard: a message among its terms, a time as its time.
fn in_guard(f: &[u8], guard: Guard, sort: Sort, x: usize) -> bool
    ensures { (ts : List Term) (e : ℕ) → many (term_at f.now) guard.count guard.terms ≡ got ts e → result ≡ in_guard (sort_of sort) x ts guard.time }
{
    match sort {
        Sort::Message => is_among(f, guard, x),
        Sort::Time => x == guard.time,
    }
}

// Each new variable is in its guard: those from n on are new.
fn all_in_guard<S: AsSort>(f: &[u8], guard: Guard, sorts: &[S], n: usize) -> bool
    requires { n ≤ length sorts.now }
    ensures { (ts : List Term) (e : ℕ) → many (term_at f.now) guard.count guard.terms ≡ got ts e
        → result ≡ guarded n (map S.meaning (drop n sorts.now)) ts guard.time }
{
    for x in n..sorts.len() {
        if !in_guard(f, guard, sorts[x].sort(), x) {
            return false;
        }
    }
    true
}

// The guard of a quantifier whose new variables are those from n on.
fn see_new<S: AsSort>(file: File, at: usize, sorts: &[S], n: usize) -> Option<Opened>
    requires { n ≤ length sorts.now }
    ensures { Promises (Tabled file.entry.arities.now) (λ (ars : List ℕ). GuardIs file.entry.bytes.now ars at (map S.meaning sorts.now) n result) }
{
    let guard = facts::see_guard(file, at, sorts)?;
    Some(Opened {
        count: sorts.len(),
        end: guard.end,
        fits: guard.fits & all_in_guard(file.bytes, guard, sorts, n),
    })
}

// What stands before a quantifier's body where n variables are in scope: their sorts are lent, and get the new ones behind them.
pub fn see_head<S: AsSort>(file: File, at: usize, sorts: &mut [S], n: usize) -> Option<Opened>
    requires { (n ≤ most_scope) × (length sorts.old ≡ most_scope) }
    ensures { Promises (Tabled file.entry.arities.now)
        (λ (ars : List ℕ). HeadIs (scoped_at file.entry.bytes.now ars n at) n (map S.meaning sorts.old) (map S.meaning sorts.new) result) }
{
    let (k, i) = number::below(file.bytes, at, figures::NEW_LIMIT)?;
    let m = n + k as usize;
    if figures::MOST_SCOPE < m {
        return None;
    }
    let e = read_sorts(file.bytes, i, &mut sorts[n..m])?;
    see_new(file, e, &sorts[..m], n)
}
