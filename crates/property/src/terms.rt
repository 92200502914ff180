// The sorts in scope, and the terms of a property: a variable or a public name.
ghost use Rattle.std.specs.Prelude.{◌≡◌, Bool, map};
ghost use Rattle.number.specs.Reading.{many, seen};
ghost use Rattle.lists.specs.Lists.{any_by, all_by};
ghost use Rattle.property.specs.Formula.{Term};
ghost use Rattle.property.specs.Fit.{in_scope, term_fits};
ghost use Rattle.property.specs.Layout.{term_at};
ghost use Rattle.property.specs.Walk.{sort_of, byte_sort, variable_of, leaf_of};

use crate::figures;

// "each sort (0 message, 3 time)"
#[derive(Clone, Copy, PartialEq)]
pub enum Sort {
    Message,
    Time,
}

// What says a sort: the enum itself, and a byte (0 message, any other one time).
pub trait AsSort: Copy {
    ghost use Rattle.property.specs.Formula.{Sort};

    ghost meaning: { Self → Sort };

    fn sort(self) -> Sort
        ensures { sort_of result ≡ meaning self };

    fn of(sort: Sort) -> Self
        ensures { meaning result ≡ sort_of sort };
}

impl AsSort for Sort {
    ghost meaning = { sort_of };

    fn sort(self) -> Sort {
        self
    }

    fn of(sort: Sort) -> Sort {
        sort
    }
}

impl AsSort for u8 {
    ghost meaning = { byte_sort };

    fn sort(self) -> Sort {
        if usize::from(self) == protocol::figures::MESSAGE_SORT {
            return Sort::Message;
        }
        Sort::Time
    }

    fn of(sort: Sort) -> u8 {
        match sort {
            Sort::Message => protocol::figures::MESSAGE_SORT as u8,
            Sort::Time => figures::TIME_SORT as u8,
        }
    }
}

// The variable x is in scope, and of that sort. The sorts of the variables in scope are lent.
pub fn has_sort<S: AsSort>(sorts: &[S], x: usize, sort: Sort) -> bool
    ensures { result ≡ in_scope (map S.meaning sorts.now) x (sort_of sort) }
{
    match sorts.get(x) {
        Some(s) => s.sort() == sort,
        None => false,
    }
}

// A term: its variable, or none of a public name; and the place behind it.
pub fn see_term(f: &[u8], at: usize) -> Option<(Option<usize>, usize)>
    ensures { result ≡ leaf_of (term_at f.now at) }
{
    let (tag, i) = number::below(f, at, figures::TERM_TAGS)?;
    let (x, e) = number::read_number(f, i)?;
    if tag as usize == term::VARIABLE {
        return Some((Some(x as usize), e));
    }
    Some((None, e))
}

// k terms, and whether the test, which is given a term's variable, passes one of them.
pub fn any_term<F: Fn(Option<usize>) -> bool>(
    f: &[u8],
    at: usize,
    k: usize,
    test: F,
) -> Option<(usize, bool)>
    requires { F.IsAlwaysCallable test }
    ensures { (q : Term → Bool) → ((t : Term) (b : Bool) → F.post test (variable_of t) b → b ≡ q t) → result ≡ seen (any_by q) (many (term_at f.now) k at) }
{
    let mut i = at;
    let mut found = false;
    for _ in 0..k {
        let (x, e) = see_term(f, i)?;
        found = found | test(x);
        i = e;
    }
    Some((i, found))
}

// k terms, and whether all their variables are in scope and of sort message.
pub fn fit_terms<S: AsSort>(f: &[u8], at: usize, k: usize, sorts: &[S]) -> Option<(usize, bool)>
    ensures { result ≡ seen (all_by (term_fits (map S.meaning sorts.now))) (many (term_at f.now) k at) }
{
    let unfit = |v: Option<usize>| match v {
        Some(x) => !has_sort(sorts, x, Sort::Message),
        None => false,
    };
    let (e, found) = any_term(f, at, k, unfit)?;
    Some((e, !found))
}
