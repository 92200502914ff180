// Products in place: mul, inv and one with any arguments become the product of their factors, exp the power.
#![tactic(auto)]

ghost use Rattle.std.specs.Prelude.{◌≡◌, ℕ, ◌+◌, ◌≤◌, ◌<◌, length, nat_abs, ◌∷◌, true, false};
ghost use Rattle.message.specs.Functions.{exp};
ghost use Rattle.message.specs.Gather.{multiplied, powered};
ghost use Rattle.term.specs.Term.{Term, Terms, encode, nil, ◌&◌};
ghost use Rattle.message.specs.Product.{Exps};
ghost use Rattle.lists.specs.Asks.{Asks, Asks₂, Promises, Promises₂};
ghost use Rattle.octets.specs.Splice.Prefix.{Wrote};
ghost use Rattle.term.specs.Sizes.{term_room};
ghost use Rattle.term.specs.Reader.{symbol_at};
ghost use Rattle.product.specs.Writing.{bytes_in};
ghost use Rattle.product.specs.Chain.{repeated, copies, row, sides, written};
ghost use Rattle.product.specs.Side.{signed_limit, rise, NextIs, Small, side};
ghost use Rattle.product.specs.Tower.{is_exp, is_factor, towered};
ghost use Rattle.factors.specs.Way.{way_of};
ghost use Rattle.product.specs.Asked.{Whole, WholePower};
ghost use Rattle.product.specs.Inner.{Lay, Both, Prod, Power, Behind, Tower};

use factors::{Entry, Way};
use term::Symbol;

// The tags that are written, as bytes.
const ONE: u8 = term::ONE as u8;

const INV: u8 = term::INV as u8;

const MUL: u8 = term::MUL as u8;

// How often a factor of exponent p stands on the side of the sign; true is minus. Two signs and two sides: a try_from says it no plainer.
fn rises(p: i64, minus: bool) -> usize
    requires { nat_abs p < signed_limit }
    ensures { result ≡ rise minus p }
{
    if minus {
        if p < 0 {
            let q = 0 - p;
            return q as usize;
        }
        return 0;
    }
    if 0 < p {
        return p as usize;
    }
    0
}

// The first entry from i on that stands on the side.
fn next_row(entries: &[Entry], i: usize, minus: bool) -> Option<usize>
    requires { (i ≤ length entries.now) × Small entries.now }
    ensures { NextIs entries.now i minus result }
{
    for j in i..entries.len() {
        if 0 < rises(entries[j].power, minus) {
            return Some(j);
        }
    }
    None
}

// Writes the bytes from a up to e m times behind them, each behind the tag of mul.
fn put_many(out: &mut [u8], o: usize, a: usize, e: usize, m: usize) -> usize
    requires { (a ≤ e) × (e ≤ o) × (o + length (repeated m (bytes_in out.old a e)) ≤ length out.old) }
    ensures { Wrote result out.old o out.new result (repeated m (bytes_in out.old a e)) }
{
    let len = e - a;
    let mut p = o;
    for _ in 0..m {
        out[p] = MUL;
        octets::copy_within(out, a, p + 1, len);
        p = p + 1 + len;
    }
    p
}

// The same; a leaf of two bytes that stands once, as most do, is written without a loop.
fn put_all(out: &mut [u8], o: usize, a: usize, e: usize, m: usize) -> usize
    requires { (a ≤ e) × (e ≤ o) × (o + length (repeated m (bytes_in out.old a e)) ≤ length out.old) }
    ensures { Wrote result out.old o out.new result (repeated m (bytes_in out.old a e)) }
{
    if m == 1 {
        if e - a == factors::SHORT_LEAF {
            out[o] = MUL;
            out[o + 1] = out[a];
            out[o + factors::SHORT_LEAF] = out[a + 1];
            return o + 1 + factors::SHORT_LEAF;
        }
    }
    put_many(out, o, a, e, m)
}

// Writes a factor n times, the last without a tag unless more comes.
fn put_factor(out: &mut [u8], o: usize, a: usize, e: usize, n: usize, more: bool) -> usize
    requires { (0 < n) × (a ≤ e) × (e ≤ o) × (o + length (copies n (bytes_in out.old a e) more) ≤ length out.old) }
    ensures { Wrote result out.old o out.new result (copies n (bytes_in out.old a e) more) }
{
    if more {
        return put_all(out, o, a, e, n);
    }
    let p = put_many(out, o, a, e, n - 1);
    octets::copy_within(out, a, p, e - a);
    p + (e - a)
}

// Writes the entries that stand on the side as a product, from o on: behind the factors, which stand in the same slice.
fn write_rows(out: &mut [u8], o: usize, entries: &[Entry], minus: bool) -> usize
    requires { Asks (Lay out.old entries.now minus o 0) }
    ensures { Promises (Lay out.old entries.now minus o 0) (λ (l : Exps). Wrote result out.old o out.new result (row (side minus l))) }
{
    let mut next = next_row(entries, 0, minus);
    let mut p = o;
    // A while: whether a row follows is known when the row before is written.
    while let Some(i) = next {
        let entry = entries[i];
        let c = rises(entry.power, minus);
        next = next_row(entries, i + 1, minus);
        p = put_factor(
            out,
            p,
            entry.start as usize,
            entry.end as usize,
            c,
            next.is_some(),
        );
    }
    p
}

// The same behind a tag.
fn write_tagged(out: &mut [u8], o: usize, tag: u8, entries: &[Entry], minus: bool) -> usize
    requires { Asks (Lay out.old entries.now minus o 1) }
    ensures { Promises (Lay out.old entries.now minus o 1) (λ (l : Exps). Wrote result out.old o out.new result (tag ∷ row (side minus l))) }
{
    out[o] = tag;
    write_rows(out, o + 1, entries, minus)
}

// Writes the table's product as P, inv(N) or mul(P, inv(N)), and nothing where no factor is left.
fn write_table(out: &mut [u8], o: usize, entries: &[Entry]) -> usize
    requires { Asks (Both out.old entries.now o) }
    ensures { Promises (Both out.old entries.now o) (λ (l : Exps). Wrote result out.old o out.new result (sides (side false l) (side true l))) }
{
    if next_row(entries, 0, true).is_none() {
        return write_rows(out, o, entries, false);
    }
    if next_row(entries, 0, false).is_none() {
        return write_tagged(out, o, INV, entries, true);
    }
    let i = write_tagged(out, o, MUL, entries, false);
    write_tagged(out, i, INV, entries, true)
}

// Writes the product of the k terms from a place up to e behind them, and nothing where no factor is left: returns where that ends.
fn write_product(out: &mut [u8], at: usize, k: usize, e: usize, arities: &[u8]) -> usize
    requires { Asks (Prod arities.now out.old at k e) }
    ensures { Promises (Prod arities.now out.old at k e) (λ (ts : Terms). Wrote result out.old e out.new result (written ts)) }
{
    let mut entries = [Entry {
        start: 0,
        end: 0,
        power: 0,
    }; term::MOST_SYMBOLS];
    let f = factors::collect(&mut entries, 0, &out[..e], at, k, arities, false);
    write_table(out, e, &entries[..f.n])
}

// The term from o up to e becomes the product of its factors, made behind it and moved down: returns where that ends.
pub fn multiply(out: &mut [u8], o: usize, e: usize, arities: &[u8]) -> usize
    requires { Asks (Whole arities.now out.old o e) }
    ensures { Promises (Whole arities.now out.old o e) (λ (t : Term). Wrote (e + term_room) out.old o out.new result (encode (multiplied (t & nil)))) }
{
    let n = write_product(out, o, 1, e, arities);
    if n == e {
        out[o] = ONE;
        return o + 1;
    }
    octets::copy_within(out, e, o, n - e);
    o + (n - e)
}

// exp at o, whose base stands from b up to z and the k factors of whose exponent stand from z up to e: returns where the power ends.
fn power_at(
    out: &mut [u8],
    o: usize,
    b: usize,
    z: usize,
    k: usize,
    e: usize,
    arities: &[u8],
) -> usize
    requires { Asks₂ (Power arities.now out.old o b z k e) }
    ensures { Promises₂ (Power arities.now out.old o b z k e) (λ (t : Term) (ts : Terms). Wrote (e + term_room) out.old o out.new result (encode (powered t ts))) }
{
    let n = write_product(out, z, k, e, arities);
    if n == e {
        octets::copy_within(out, b, o, z - b);
        return o + (z - b);
    }
    octets::copy_within(out, b, o + 1, z - b);
    let y = o + 1 + (z - b);
    octets::copy_within(out, e, y, n - e);
    y + (n - e)
}

// Whether the term at a place is an exp.
fn is_exp(src: &[u8], arities: &[u8], at: usize) -> bool
    ensures { result ≡ is_exp (symbol_at src.now arities.now at) }
{
    matches!(
        term::symbol_at(src, arities, at),
        Some(Symbol::Op(term::EXP, _, _))
    )
}

// Where the base of the tower of exps at a place begins: behind their tags.
fn base_of(src: &[u8], arities: &[u8], at: usize) -> usize
    requires { Asks₂ (Behind arities.now src.now at) }
    ensures { Promises₂ (Behind arities.now src.now at) (λ (e : ℕ) (t : Term). Tower arities.now src.now at result e t) }
{
    let mut b = at;
    // A while: nothing tells beforehand how many tags there are.
    while is_exp(src, arities, b) {
        b += 1;
    }
    b
}

// The place behind the term at a place.
fn behind(src: &[u8], arities: &[u8], at: usize) -> usize
    requires { Asks₂ (Behind arities.now src.now at) }
    ensures { Promises₂ (Behind arities.now src.now at) (λ (e : ℕ) (t : Term). result ≡ e) }
{
    at + term::term_part(src, arities, at).len()
}

// Whether the term at a place is a factor itself: no mul, inv or one.
fn is_factor(src: &[u8], arities: &[u8], at: usize) -> bool
    ensures { result ≡ is_factor (way_of (symbol_at src.now arities.now at)) }
{
    matches!(
        factors::way_at(src, arities, at),
        Way::Leaf(_) | Way::Factor
    )
}

// The tower of exps from o up to e becomes the power of its base, the exponents multiplied out once: returns where that ends.
// One exp whose exponent is a factor is that power already.
pub fn exponent(out: &mut [u8], o: usize, e: usize, arities: &[u8]) -> usize
    requires { Asks₂ (WholePower arities.now out.old o e) }
    ensures { Promises₂ (WholePower arities.now out.old o e) (λ (x y : Term). Wrote (e + term_room) out.old o out.new result (encode (towered (exp x y)))) }
{
    let b = base_of(out, arities, o);
    let z = behind(out, arities, b);
    let k = b - o;
    if k == 1 && is_factor(out, arities, z) {
        return e;
    }
    power_at(out, o, b, z, k, e, arities)
}
