// The place behind a formula.
ghost use Rattle.std.specs.Prelude.{◌≡◌};
ghost use Rattle.lists.specs.Asks.{Asks, Promises};
ghost use Rattle.judge.specs.Reading.{AtomEnds};
ghost use Rattle.judge.specs.Judging.{Written, Formed};

use crate::{figures, reading};

// The place behind an atom, whose tag stands before the place.
fn skip_atom(file: &[u8], at: usize, tag: usize, arities: &[u8]) -> usize
    ensures { AtomEnds file.now arities.now tag at result }
{
    if tag < property::figures::BEFORE {
        let t = reading::term(file, at);
        return reading::term(file, t.next).next;
    }
    if tag < property::figures::ACTION {
        let i = reading::read(file, at);
        return reading::read(file, i.next).next;
    }
    reading::read_fact(file, at, arities).next
}

// The place behind the formula.
pub fn skip(file: &[u8], at: usize, arities: &[u8]) -> usize
    requires { Asks (Formed file.now arities.now at) }
    ensures { Promises (Formed file.now arities.now at) (λ (w : Written). result ≡ w.end) }
{
    let tag = reading::read(file, at);
    if tag.value == property::figures::FALSE {
        return tag.next;
    }
    if tag.value < property::figures::AND {
        return skip_atom(file, tag.next, tag.value, arities);
    }
    if tag.value < property::figures::EXISTS {
        let m = skip(file, tag.next, arities);
        return skip(file, m, arities);
    }
    let g = reading::read_guard(file, tag.next, arities, true);
    skip(file, g.fact.next, arities)
}
