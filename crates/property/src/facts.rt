// Facts with their time variables, and atoms.
ghost use Rattle.std.specs.Prelude.{◌≡◌, List, Bool, ℕ, get_or, map};
ghost use Rattle.lists.specs.Asks.{Promises};
ghost use Rattle.number.specs.Reading.{read_number, seen};
ghost use Rattle.term.specs.Arity.{undeclared};
ghost use Rattle.property.specs.Formula.{tmp};
ghost use Rattle.property.specs.Fit.{in_scope, atom_fits};
ghost use Rattle.property.specs.Layout.{equal_at, times_at, action_at, atom_at};
ghost use Rattle.property.specs.Walk.{declared, Tabled, as_guard, guard_at};

use crate::terms::{AsSort, Sort};
use crate::{figures, terms};

// A property file, and the table of arities of the fact symbols that it stands under.
#[derive(Clone, Copy)]
pub struct File<'a> {
    pub bytes: &'a [u8],
    pub arities: &'a [u8],
}

// A guard: the place of its terms, their number, its time variable; the place behind it; whether its variables are in scope and of their sort.
#[derive(Clone, Copy)]
pub struct Guard {
    pub terms: usize,
    pub count: usize,
    pub time: usize,
    pub end: usize,
    pub fits: bool,
}

// The arity of a fact symbol, where one is declared.
fn arity_of(arities: &[u8], symbol: usize) -> Option<usize>
    ensures { result ≡ declared (get_or arities.now symbol undeclared) }
{
    let k = *arities.get(symbol)?;
    if k == term::UNDECLARED {
        return None;
    }
    Some(usize::from(k))
}

// A fact and its time variable.
pub fn see_guard<S: AsSort>(file: File, at: usize, sorts: &[S]) -> Option<Guard>
    ensures { Promises (Tabled file.entry.arities.now) (λ (ars : List ℕ). result ≡ as_guard (map S.meaning sorts.now) (guard_at file.entry.bytes.now ars at)) }
{
    let (symbol, place) = number::read_number(file.bytes, at)?;
    let count = arity_of(file.arities, symbol as usize)?;
    let (i, fits) = terms::fit_terms(file.bytes, place, count, sorts)?;
    let (time, end) = number::read_number(file.bytes, i)?;
    Some(Guard {
        terms: place,
        count: count,
        time: time as usize,
        end: end,
        fits: fits & terms::has_sort(sorts, time as usize, Sort::Time),
    })
}

// "action (fact, time variable)"
fn see_action<S: AsSort>(file: File, at: usize, sorts: &[S]) -> Option<(usize, bool)>
    ensures { Promises (Tabled file.entry.arities.now)
        (λ (ars : List ℕ). result ≡ seen (atom_fits (map S.meaning sorts.now)) (action_at file.entry.bytes.now ars at)) }
{
    let guard = see_guard(file, at, sorts)?;
    Some((guard.end, guard.fits))
}

// "equal (two terms)"
fn see_equal<S: AsSort>(f: &[u8], at: usize, sorts: &[S]) -> Option<(usize, bool)>
    ensures { result ≡ seen (atom_fits (map S.meaning sorts.now)) (equal_at f.now at) }
{
    terms::fit_terms(f, at, 2, sorts)
}

// A time variable, and whether it is in scope and of sort time.
fn see_time<S: AsSort>(f: &[u8], at: usize, sorts: &[S]) -> Option<(usize, bool)>
    ensures { result ≡ seen (λ (i : ℕ). in_scope (map S.meaning sorts.now) i tmp) (read_number f.now at) }
{
    let (i, e) = number::read_number(f, at)?;
    Some((e, terms::has_sort(sorts, i as usize, Sort::Time)))
}

// "before, same time (two time variables)"
fn see_times<S: AsSort>(f: &[u8], at: usize, sorts: &[S]) -> Option<(usize, bool)>
    ensures { (q : Bool) → result ≡ seen (atom_fits (map S.meaning sorts.now)) (times_at f.now q at) }
{
    let (i, x) = see_time(f, at, sorts)?;
    let (e, y) = see_time(f, i, sorts)?;
    Some((e, x & y))
}

// What stands behind an atom's tag.
pub fn see_atom<S: AsSort>(file: File, tag: usize, at: usize, sorts: &[S]) -> Option<(usize, bool)>
    ensures { Promises (Tabled file.entry.arities.now)
        (λ (ars : List ℕ). result ≡ seen (atom_fits (map S.meaning sorts.now)) (atom_at file.entry.bytes.now ars tag at)) }
{
    if tag < figures::BEFORE {
        return see_equal(file.bytes, at, sorts);
    }
    if tag < figures::ACTION {
        return see_times(file.bytes, at, sorts);
    }
    see_action(file, at, sorts)
}
