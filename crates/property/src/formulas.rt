// Formulas: 3 and 5 in one walk. 5 is told where the whole formula reads.
ghost use Rattle.std.specs.Prelude.{◌≡◌, List, [], Bool, ℕ, ◌≤◌, length};
ghost use Rattle.lists.specs.Asks.{Asks, Promises};
ghost use Rattle.number.specs.Reading.{seen};
ghost use Rattle.property.specs.Figures.{most_scope};
ghost use Rattle.property.specs.Fit.{fit};
ghost use Rattle.property.specs.Layout.{pair_at, quant_at, body_at, formula_at, property};
ghost use Rattle.property.specs.Walk.{scope_of, Tabled};

use crate::facts::File;
use crate::terms::Sort;
use crate::{facts, figures, heads};

// A formula of at most so many levels. The sorts of the variables in scope are lent.
#[cycle(see_body_see_formula_see_pair_see_quantifier)]
fn see_formula(file: File, levels: usize, at: usize, sorts: &[Sort]) -> Option<(usize, bool)>
    requires { (length sorts.now ≤ most_scope) × Asks (Tabled file.arities.now) }
    ensures { Promises (Tabled file.entry.arities.now) (λ (ars : List ℕ). result ≡ seen (fit (scope_of sorts.now)) (formula_at file.entry.bytes.now ars levels (length sorts.now) at)) }
{
    if levels == 0 {
        return None;
    }
    let (tag, e) = number::below(file.bytes, at, figures::TAGS)?;
    see_body(file, levels - 1, tag as usize, e, sorts)
}

// What stands behind a formula's tag, with so many levels below it.
#[cycle(see_body_see_formula_see_pair_see_quantifier)]
fn see_body(
    file: File,
    levels: usize,
    tag: usize,
    at: usize,
    sorts: &[Sort],
) -> Option<(usize, bool)>
    requires { (length sorts.now ≤ most_scope) × Asks (Tabled file.arities.now) }
    ensures { Promises (Tabled file.entry.arities.now) (λ (ars : List ℕ). result ≡ seen (fit (scope_of sorts.now)) (body_at file.entry.bytes.now ars (formula_at file.entry.bytes.now ars levels) (length sorts.now) tag at)) }
{
    if tag == figures::FALSE {
        return Some((at, true));
    }
    if tag < figures::AND {
        return facts::see_atom(file, tag, at, sorts);
    }
    if tag < figures::EXISTS {
        return see_pair(file, levels, at, sorts);
    }
    see_quantifier(file, levels, at, sorts)
}

// Two formulas.
#[cycle(see_body_see_formula_see_pair_see_quantifier)]
fn see_pair(file: File, levels: usize, at: usize, sorts: &[Sort]) -> Option<(usize, bool)>
    requires { (length sorts.now ≤ most_scope) × Asks (Tabled file.arities.now) }
    ensures { Promises (Tabled file.entry.arities.now) (λ (ars : List ℕ). ((q : Bool) → result ≡ seen (fit (scope_of sorts.now)) (pair_at (formula_at file.entry.bytes.now ars levels (length sorts.now)) q at))) }
{
    let (i, x) = see_formula(file, levels, at, sorts)?;
    let (e, y) = see_formula(file, levels, i, sorts)?;
    Some((e, x & y))
}

// What stands before a quantifier's body, and the body.
#[cycle(see_body_see_formula_see_pair_see_quantifier)]
fn see_quantifier(file: File, levels: usize, at: usize, sorts: &[Sort]) -> Option<(usize, bool)>
    requires { (length sorts.now ≤ most_scope) × Asks (Tabled file.arities.now) }
    ensures { Promises (Tabled file.entry.arities.now) (λ (ars : List ℕ). ((q : Bool) → result ≡ seen (fit (scope_of sorts.now)) (quant_at file.entry.bytes.now ars (formula_at file.entry.bytes.now ars levels) (length sorts.now) q at))) }
{
    let n = sorts.len();
    let mut mine = [Sort::Message; figures::MOST_SCOPE];
    mine[..n].copy_from_slice(sorts);
    let head = heads::see_head(file, at, &mut mine, n)?;
    let (e, fits) = see_formula(file, levels, head.end, &mine[..head.count])?;
    Some((e, head.fits & fits))
}

// A whole file: leftover bytes are a layout fault.
pub fn see_property(file: File) -> Option<(usize, bool)>
    requires { Asks (Tabled file.arities.now) }
    ensures { Promises (Tabled file.entry.arities.now) (λ (ars : List ℕ). result ≡ seen (fit []) (property file.entry.bytes.now ars)) }
{
    let (e, fits) = see_formula(file, figures::MOST_NESTING, 0, &[])?;
    if e == file.bytes.len() {
        return Some((e, fits));
    }
    None
}
