// The canonical form of terms at a place, filled in with canonical values; whether a term is canonical.
#![tactic(auto)]

ghost use Rattle.std.specs.Prelude.{◌≡◌, true, false, ◌+◌, ◌≤◌, ◌<◌, ℕ, length, List, ◌↔◌, ◌≢◌};
ghost use Rattle.octets.specs.Limits.{longest};
ghost use Rattle.octets.specs.Compare.{is_equal, compare_bytes};
ghost use Rattle.octets.specs.Head.{Stands};
ghost use Rattle.canonical.specs.First.{FirstAt};
ghost use Rattle.message.specs.Filled.{filleds};
ghost use Rattle.message.specs.Substitution.{sub, subs};
ghost use Rattle.term.specs.Tags.{exp_tag};
ghost use Rattle.term.specs.Sizes.{term_room};
ghost use Rattle.term.specs.Term.{Kind, Term, Terms, leaf, encode, encodes};
ghost use Rattle.lists.specs.Asks.{Asks, Asks₂, Asks₃, Promises, Promises₂, Promises₃};
ghost use Rattle.octets.specs.Splice.Prefix.{Wrote};
ghost use Rattle.number.specs.Groups.{groups};
ghost use Rattle.message.specs.Table.{rules};
ghost use Rattle.message.specs.Canon.{apply, canon};
ghost use Rattle.canonical.specs.Loose.{is_product, beside, closed, mades};
ghost use Rattle.canonical.specs.Contract.{Job, Out, MessageAt, MessageIs, form_room};
ghost use Rattle.canonical.specs.Inner.{LeafJob, Here, Built, Going};
ghost use Rattle.canonical.specs.Matching.{Left, Stepped, Fits, Given, Ruled};

use term::Symbol;

// The room in which a message's form is made: for the term, and behind it for a product.
pub const FORM_ROOM: usize = term::TERM_ROOM + term::TERM_ROOM;

// The tag of no function: none is around.
const OUTSIDE: usize = term::VARIABLE;

// The places of the terms to be read next and of what is to be written next.
#[derive(Clone, Copy)]
pub struct Next {
    pub at: usize,
    pub o: usize,
}

// As many variables as a rule has at most, and the tag of one.
const VARIABLES: usize = 2;

const A_VARIABLE: u8 = term::VARIABLE as u8;

// Where the value of a variable stands.
#[derive(Clone, Copy)]
struct Span {
    from: usize,
    to: usize,
}

// The first symbol of the term at a place; where no term stands nothing is said of it, and no caller asks.
fn first(src: &[u8], arities: &[u8], at: usize) -> Symbol
    ensures { Promises₂ (Here arities.now src.now at) (λ (e : ℕ) (t : Term). FirstAt t at result) }
{
    term::symbol_at(src, arities, at).unwrap_or(Symbol::Leaf(term::VARIABLE, 0, at))
}

// The place behind the term at a place.
fn end_of(src: &[u8], arities: &[u8], at: usize) -> usize
    requires { length src.now ≤ longest }
    ensures { Promises₂ (Here arities.now src.now at) (λ (e : ℕ) (t : Term). result ≡ e) }
{
    match term::term_end(src, arities, at) {
        Some((e, _)) => e,
        None => at,
    }
}

// Whether the term at a place has the bytes from one place up to another.
fn again(src: &[u8], arities: &[u8], from: usize, to: usize, at: usize) -> bool
    requires { (length src.now ≤ longest) × (from ≤ to) × (to ≤ length src.now) }
    ensures { Promises (λ (x : Term). Here arities.now src.now from to x) (λ (x : Term). Promises₂ (Here arities.now src.now at) (λ (e : ℕ) (y : Term). result ≡ is_equal (compare_bytes (encode x) (encode y)))) }
{
    octets::same_bytes(&src[from..to], term::term_part(src, arities, at))
}

// Moves the bytes from one place up to another down to o, and gives the place behind them.
fn move_to(out: &mut [u8], o: usize, from: usize, to: usize) -> usize
    requires { (o ≤ from) × (from ≤ to) × (to ≤ length out.old) }
    ensures { Promises (λ (q : List ℕ). Stands out.old from q to) (λ (q : List ℕ). Wrote result out.old o out.new result q) }
{
    octets::copy_within(out, from, o, to - from);
    o + (to - from)
}

// Whether the function of a tag is one, inv or mul.
fn is_product(tag: usize) -> bool
    ensures { result ≡ is_product tag }
{
    matches!(tag, term::ONE | term::INV | term::MUL)
}

// What counts as the function around the arguments behind the first: an exponent is made as a factor.
fn beside(around: usize) -> usize
    ensures { result ≡ beside around }
{
    if around == term::EXP {
        term::MUL
    } else {
        around
    }
}

// Writes a number.
fn put_number(out: &mut [u8], o: usize, n: u32) -> usize
    requires { o + length (groups n) ≤ length out.old }
    ensures { Wrote result out.old o out.new result (groups n) }
{
    number::write_number(out, o, n)
}

// Writes a leaf: the value of a variable, or a name as it stands.
fn put_leaf(
    out: &mut [u8],
    o: usize,
    tag: usize,
    number: u32,
    vals: &[u8],
    starts: &[usize],
) -> usize
    requires { Asks₂ (LeafJob vals.now starts.now (length out.old) o tag number) }
    ensures { Promises₂ (LeafJob vals.now starts.now (length out.old) o tag number) (λ (θ : ℕ → Term) (k : Kind). Wrote result out.old o out.new result (encode (sub θ (leaf k number)))) }
{
    if tag == term::VARIABLE {
        let v = number as usize;
        return octets::copy_into(out, o, &vals[starts[v]..starts[v + 1]]);
    }
    let a = put_number(out, o, tag as u32);
    put_number(out, a, number)
}

// The place behind the argument at a place: where no pattern is left it is the last, and ends at e. A leaf of a small number, as most are, is told by
// its bytes.
fn argument_end(out: &[u8], arities: &[u8], at: usize, e: usize, left: usize) -> usize
    requires { (length out.now ≤ longest) × Asks₂ (Here arities.now out.now at) }
    ensures { Promises₂ (Here arities.now out.now at) (λ (d : ℕ) (t : Term). (left ≡ 0 → d ≡ e) → result ≡ d) }
{
    if left == 0 {
        return e;
    }
    let tag = out[at];
    if tag < factors::FIRST_FUNCTION {
        let number = out[at + 1];
        if number < number::TOP_BIT {
            return at + factors::SHORT_LEAF;
        }
    }
    end_of(out, arities, at)
}

// One symbol of the patterns against the arguments. A function's tag must be the same. A variable's value is what stands at its first place; at a
// further one it must stand again.
fn step(
    out: &[u8],
    arities: &[u8],
    at: usize,
    e: usize,
    patterns: &[u8],
    i: usize,
    spans: &mut [Option<Span>; VARIABLES],
) -> Option<(usize, usize)>
    requires { (i < length patterns.now) × Asks₃ (Left arities.now out.now e patterns.now i at spans.old) }
    ensures { Promises₃ (Left arities.now out.now e patterns.now i at spans.old) (Stepped arities.now out.now e patterns.now i at spans.old spans.new result) }
{
    let tag = patterns[i];
    if tag != A_VARIABLE {
        if out[at] != tag {
            return None;
        }
        return Some((i + 1, at + 1));
    }
    let v = patterns[i + 1] as usize;
    let next = i + 2;
    match spans[v] {
        Some(span) => {
            if !again(out, arities, span.from, span.to, at) {
                return None;
            }
            Some((next, at + (span.to - span.from)))
        }
        None => {
            let end = argument_end(out, arities, at, e, patterns.len() - next);
            spans[v] = Some(Span { from: at, to: end });
            Some((next, end))
        }
    }
}

// Whether the arguments at a place, up to e, are an instance of the patterns; and where the values of the variables stand.
fn fits(
    out: &[u8],
    arities: &[u8],
    at: usize,
    e: usize,
    patterns: &[u8],
    spans: &mut [Option<Span>; VARIABLES],
) -> bool
    requires { Asks₃ (Left arities.now out.now e patterns.now 0 at spans.old) }
    ensures { Promises₃ (Left arities.now out.now e patterns.now 0 at spans.old) (Fits arities.now out.now at spans.old spans.new result) }
{
    let mut i = 0;
    let mut a = at;
    // A while: a symbol of the patterns takes one byte or two.
    while i < patterns.len() {
        match step(out, arities, a, e, patterns, i, spans) {
            Some((j, b)) => {
                i = j;
                a = b;
            }
            None => {
                return false;
            }
        }
    }
    true
}

// Writes a rule's result: the value of a variable moved down, or a constant.
fn put_result(out: &mut [u8], o: usize, res: &[u8], spans: &[Option<Span>; VARIABLES]) -> usize
    requires { Asks (Given out.old o res.now spans.now) }
    ensures { Promises (Given out.old o res.now spans.now) (λ (q : List ℕ). Wrote result out.old o out.new result q) }
{
    if res[0] != A_VARIABLE {
        return octets::copy_into(out, o, res);
    }
    match spans[res[1] as usize] {
        Some(span) => move_to(out, o, span.from, span.to),
        None => o,
    }
}

// A function of made arguments by its rule: its result where the arguments are an instance of the rule's patterns.
fn rewrite(out: &mut [u8], o: usize, e: usize, arities: &[u8], patterns: &[u8], res: &[u8]) -> usize
    requires { Asks₂ (Ruled arities.now out.old o e patterns.now res.now) }
    ensures { Promises₂ (Ruled arities.now out.old o e patterns.now res.now) (λ (f : ℕ) (us : Terms). Wrote e out.old o out.new result (encode (apply rules f us))) }
{
    let mut spans = [None; VARIABLES];
    if fits(out, arities, o + 1, e, patterns, &mut spans) {
        return put_result(out, o, res, &spans);
    }
    e
}

// The same; where another function stands in place of the first pattern's, its byte tells so before anything is set up.
fn by_rule(out: &mut [u8], o: usize, e: usize, arities: &[u8], patterns: &[u8], res: &[u8]) -> usize
    requires { Asks₂ (Ruled arities.now out.old o e patterns.now res.now) }
    ensures { Promises₂ (Ruled arities.now out.old o e patterns.now res.now) (λ (f : ℕ) (us : Terms). Wrote e out.old o out.new result (encode (apply rules f us))) }
{
    if 0 < patterns.len() {
        let tag = patterns[0];
        if tag != A_VARIABLE {
            if out[o + 1] != tag {
                return e;
            }
        }
    }
    rewrite(out, o, e, arities, patterns, res)
}

// The function of a tag, no product function and no exp, of canonical arguments: by its rule, if it has one. A row is a rule's patterns and its
// result, in the layout of the files; a further rule is one more row.
fn reduce(out: &mut [u8], o: usize, e: usize, tag: usize, arities: &[u8]) -> usize
    requires { (is_product tag ≡ false) × (tag ≢ exp_tag) × Asks (Built arities.now out.old o e tag) }
    ensures { Promises (Built arities.now out.old o e tag) (λ (us : Terms). Wrote e out.old o out.new result (encode (apply rules tag us))) }
{
    match tag {
        // dec(enc(x, y), y) is x.
        term::DEC => by_rule(
            out,
            o,
            e,
            arities,
            b"\x04\x00\x00\x00\x01\x00\x01",
            b"\x00\x00",
        ),
        // fst(pair(x, y)) is x.
        term::FST => by_rule(out, o, e, arities, b"\x07\x00\x00\x00\x01", b"\x00\x00"),
        // snd(pair(x, y)) is y.
        term::SND => by_rule(out, o, e, arities, b"\x07\x00\x00\x00\x01", b"\x00\x01"),
        // adec(aenc(x, pk(y)), y) is x.
        term::ADEC => by_rule(
            out,
            o,
            e,
            arities,
            b"\x1d\x00\x00\x1f\x00\x01\x00\x01",
            b"\x00\x00",
        ),
        // verify(sign(x, y), x, pk(y)) is true.
        term::VERIFY => by_rule(
            out,
            o,
            e,
            arities,
            b"\x20\x00\x00\x00\x01\x00\x00\x1f\x00\x01",
            b"\x22",
        ),
        _ => e,
    }
}

// The function of a tag, of made arguments. A product function inside a product stays as it stands, and so does an exp that is the base of an
// exp: only the outermost is multiplied out.
fn close(out: &mut [u8], o: usize, e: usize, tag: usize, around: usize, arities: &[u8]) -> usize
    requires { Asks (Built arities.now out.old o e tag) }
    ensures { Promises (Built arities.now out.old o e tag) (λ (us : Terms). Wrote (e + term_room) out.old o out.new result (encode (closed around tag us))) }
{
    if is_product(tag) {
        if is_product(around) {
            return e;
        }
        return product::multiply(out, o, e, arities);
    }
    if tag == term::EXP {
        if around == term::EXP {
            return e;
        }
        return product::exponent(out, o, e, arities);
    }
    reduce(out, o, e, tag, arities)
}

// Makes the k terms at a place, which are arguments of the function of the tag `around`, or of none.
fn make(
    out: &mut [u8],
    src: &[u8],
    p: Next,
    k: usize,
    around: usize,
    arities: &[u8],
    vals: &[u8],
    starts: &[usize],
) -> Next
    requires { Asks₂ (Job arities.now vals.now starts.now src.now p.at k (length out.old) p.o) }
    ensures { Promises₂ (Job arities.now vals.now starts.now src.now p.at k (length out.old) p.o) (λ (θ : ℕ → Term) (ts : Terms). Out (p.o + length (encodes (subs θ ts)) + term_room) p.at out.old p.o out.new result.at result.o (encodes ts) (encodes (mades around θ ts))) }
{
    if k == 0 {
        return p;
    }
    match first(src, arities, p.at) {
        Symbol::Leaf(tag, number, at) => {
            let r = put_leaf(out, p.o, tag, number, vals, starts);
            let next = Next { at: at, o: r };
            if k == 1 {
                return next;
            }
            make(out, src, next, k - 1, beside(around), arities, vals, starts)
        }
        Symbol::Op(tag, arity, at) => {
            let a = put_number(out, p.o, tag as u32);
            let first = Next { at: at, o: a };
            let args = make(out, src, first, arity as usize, tag, arities, vals, starts);
            let r = close(out, p.o, args.o, tag, around, arities);
            let next = Next { at: args.at, o: r };
            if k == 1 {
                return next;
            }
            make(out, src, next, k - 1, beside(around), arities, vals, starts)
        }
    }
}

// Reads k terms at a place of src and writes their canonical forms, filled in with the canonical values of their variables, into the part
// of the output that starts at o. The value of variable i lies in `vals` from the i-th of `starts` up to the next.
pub fn canonical_into(
    out: &mut [u8],
    o: usize,
    src: &[u8],
    at: usize,
    k: usize,
    arities: &[u8],
    vals: &[u8],
    starts: &[usize],
) -> Next
    requires { Asks₂ (Job arities.now vals.now starts.now src.now at k (length out.old) o) }
    ensures { Promises₂ (Job arities.now vals.now starts.now src.now at k (length out.old) o) (λ (θ : ℕ → Term) (ts : Terms). Out (o + length (encodes (subs θ ts)) + term_room) at out.old o out.new result.at result.o (encodes ts) (encodes (filleds θ ts))) }
{
    let first = Next { at: at, o: 0 };
    let n = make(&mut out[o..], src, first, k, OUTSIDE, arities, vals, starts);
    Next {
        at: n.at,
        o: o + n.o,
    }
}

// Writes the first symbol of the k terms at a place: a leaf filled in, or the tag of a function, whose arguments are left. Gives the places behind it,
// and how many terms are left there.
fn put_symbol(
    out: &mut [u8],
    o: usize,
    src: &[u8],
    at: usize,
    k: usize,
    arities: &[u8],
    vals: &[u8],
    starts: &[usize],
) -> (Next, usize)
    requires { (0 < k) × Asks₂ (Job arities.now vals.now starts.now src.now at k (length out.old) o) }
    ensures { (at < result.0.at) × (at < length src.now) × Promises₂ (Job arities.now vals.now starts.now src.now at k (length out.old) o) (Going arities.now vals.now starts.now src.now at out.old o result.0.at result.1 out.new result.0.o) }
{
    match first(src, arities, at) {
        Symbol::Leaf(tag, number, next) => {
            let r = put_leaf(out, o, tag, number, vals, starts);
            (Next { at: next, o: r }, k - 1)
        }
        Symbol::Op(tag, arity, next) => {
            let r = put_number(out, o, tag as u32);
            (Next { at: next, o: r }, k - 1 + arity as usize)
        }
    }
}

// Reads k terms at a place of src as `canonical_into` does and writes them filled in, but as they stand: no canonical form is made.
pub fn filled_into(
    out: &mut [u8],
    o: usize,
    src: &[u8],
    at: usize,
    k: usize,
    arities: &[u8],
    vals: &[u8],
    starts: &[usize],
) -> Next
    requires { Asks₂ (Job arities.now vals.now starts.now src.now at k (length out.old) o) }
    ensures { Promises₂ (Job arities.now vals.now starts.now src.now at k (length out.old) o) (λ (θ : ℕ → Term) (ts : Terms). Out result.o at out.old o out.new result.at result.o (encodes ts) (encodes (subs θ ts))) }
{
    let mut p = Next { at: at, o: o };
    let mut left = k;
    // A while: a symbol may leave more terms than there were.
    while 0 < left {
        let (next, more) = put_symbol(out, p.o, src, p.at, left, arities, vals, starts);
        p = next;
        left = more;
    }
    p
}

// Writes the canonical form of the message at a place to the start of an output.
pub fn canonical_term(out: &mut [u8], src: &[u8], at: usize, arities: &[u8]) -> usize
    requires { (form_room ≤ length out.old) × (length out.old ≤ longest) × Asks (MessageAt arities.now src.now at) }
    ensures { Promises (MessageAt arities.now src.now at) (λ (t : Term). Stands out.new 0 (encode (canon t)) result) }
{
    let starts = [0usize; 1];
    let n = canonical_into(out, 0, src, at, 1, arities, src, &starts);
    n.o
}

// Whether a message is in canonical form, which is made in the lent output.
pub fn is_canonical(out: &mut [u8], message: &[u8], arities: &[u8]) -> bool
    requires { (form_room ≤ length out.old) × (length out.old ≤ longest) × Asks (MessageIs arities.now message.now) }
    ensures { Promises (MessageIs arities.now message.now) (λ (t : Term). (result ≡ true) ↔ (canon t ≡ t)) }
{
    let n = canonical_term(out, message, 0, arities);
    octets::same_bytes(&out[..n], message)
}
