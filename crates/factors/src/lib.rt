// The factors of some terms in a table: for each its place in the caller's slice and its exponent, ascending by encoded bytes.
#![tactic(auto)]

ghost use Rattle.std.specs.Prelude.{◌≡◌, true, false, ◌+◌, ◌-◌, ◌≤◌, ◌<◌, length, take, drop, get_or};
ghost use Rattle.std.specs.Option.{IfSome};
ghost use Rattle.term.specs.Term.{Term, Terms, encode, encodes};
ghost use Rattle.message.specs.Product.{Exps};
ghost use Rattle.lists.specs.Asks.{Asks₂, Promises₂};
ghost use Rattle.octets.specs.Compare.{compare_bytes};
ghost use Rattle.term.specs.Tags.{mul_tag};
ghost use Rattle.term.specs.Reader.{symbol_at};
ghost use Rattle.message.specs.Gather.{sign, enter, pours};
ghost use Rattle.factors.specs.Rows.{Bounds, Found, FoundAt, Rising, Table};
ghost use Rattle.factors.specs.Laid.{OneAt};
ghost use Rattle.factors.specs.Way.{way_of};
ghost use Rattle.factors.specs.Asked.{Enter, Collect, Collected, OneTerm, Entered, Gone};

use std::cmp::Ordering;
use term::Symbol;

// The tags that are told by their byte: mul, and those of leaves, which are below.
const MUL: u8 = term::MUL as u8;

pub const FIRST_FUNCTION: u8 = term::FIRST_FUNCTION as u8;

// The bytes of a leaf whose number is one byte.
pub const SHORT_LEAF: usize = 2;

// A factor in the table: where its bytes begin in the caller's slice, where they end, and its exponent. Sixteen bytes in all, since entries are moved
// and these move at once.
#[derive(Clone, Copy)]
pub struct Entry {
    pub start: u32,
    pub end: u32,
    pub power: i64,
}

// What to do with the term at a place: walk its arguments, so many from a place on, with the same sign or the other; or enter it as a factor,
// a leaf up to its end.
#[derive(Clone, Copy)]
pub enum Way {
    On(usize, usize),
    Turn(usize, usize),
    Leaf(usize),
    Factor,
}

// How many entries the table has, and where to look for the next factor first: at the place behind the one entered last.
#[derive(Clone, Copy)]
pub struct Put {
    pub n: usize,
    pub hint: usize,
}

// How far the walk is, and how many entries the table has.
#[derive(Clone, Copy)]
pub struct Filled {
    pub at: usize,
    pub n: usize,
}

// How far the walk is behind one term, what the table is then, and how many of the term's arguments are to be walked from there.
#[derive(Clone, Copy)]
pub struct Onward {
    pub at: usize,
    pub put: Put,
    pub more: usize,
}

// The order of a factor's bytes and an entry's.
fn compare_at(key: &[u8], src: &[u8], entry: Entry) -> Ordering
    requires { (entry.start ≤ entry.end) × (entry.end ≤ length src.now) }
    ensures { result ≡ compare_bytes key.now (take (entry.end - entry.start) (drop entry.start src.now)) }
{
    octets::compare_bytes(key, &src[entry.start as usize..entry.end as usize])
}

// The entry to look at first: the hinted one, or the last.
fn first_look(n: usize, hint: usize) -> usize
    ensures { 0 < n → result < n }
{
    if hint < n { hint } else { n.saturating_sub(1) }
}

// Where these bytes stand among the entries, or where they belong: by halves, after a look at the hinted entry, as factors mostly come in order.
fn find_place(key: &[u8], src: &[u8], entries: &[Entry], hint: usize) -> Result<usize, usize>
    requires { Bounds src.now entries.now × Rising src.now entries.now }
    ensures { FoundAt key.now src.now entries.now result }
{
    let mut lo = 0;
    let mut hi = entries.len();
    let mut j = first_look(hi, hint);
    // A while: what is left is halved, and the first look is not in its middle; the library's search takes only the elements' own order.
    while lo < hi {
        match compare_at(key, src, entries[j]) {
            Ordering::Less => {
                hi = j;
            }
            Ordering::Equal => {
                return Ok(j);
            }
            Ordering::Greater => {
                lo = j + 1;
            }
        }
        j = lo + (hi - lo) / 2;
    }
    Err(lo)
}

// The exponent of one factor.
fn unit(minus: bool) -> i64
    ensures { result ≡ sign minus }
{
    if minus { -1 } else { 1 }
}

// The factor whose bytes stand at a goes into the table with one exponent more or less. The table has room behind its entries,
// so it comes with their count.
fn enter(entries: &mut [Entry], put: Put, src: &[u8], key: &[u8], a: usize, minus: bool) -> Put
    requires { Asks₂ (Enter key.now src.now entries.old put.n a) }
    ensures { Promises₂ (Enter key.now src.now entries.old put.n a) (λ (l : Exps) (t : Term). Table src.now entries.new result.n (enter t (sign minus) l)) }
{
    let n = put.n;
    let u = unit(minus);
    match find_place(key, src, &entries[..n], put.hint) {
        Ok(i) => {
            entries[i].power += u;
            Put { n: n, hint: i + 1 }
        }
        Err(i) => {
            entries.copy_within(i..n, i + 1);
            entries[i] = Entry {
                start: a as u32,
                end: (a + key.len()) as u32,
                power: u,
            };
            Put {
                n: n + 1,
                hint: i + 1,
            }
        }
    }
}

// The entry to try for a leaf: the hinted one, and the first one behind the last, as the same product often stands several times.
fn next_look(n: usize, hint: usize) -> usize {
    if hint < n { hint } else { 0 }
}

// The entry that is tried, if it is the leaf from a up to e, by two bytes; none for a longer leaf.
fn hinted(src: &[u8], a: usize, e: usize, entries: &[Entry], hint: usize) -> Option<usize>
    requires { Bounds src.now entries.now × Rising src.now entries.now × (a ≤ e) × (e ≤ length src.now) }
    ensures { IfSome result (λ h. Found (take (e - a) (drop a src.now)) src.now entries.now h true) }
{
    let h = next_look(entries.len(), hint);
    if entries.len() <= h {
        return None;
    }
    let x = entries[h].start as usize;
    let y = entries[h].end as usize;
    if y - x != SHORT_LEAF || e - a != SHORT_LEAF {
        return None;
    }
    if src[x] != src[a] || src[x + 1] != src[a + 1] {
        return None;
    }
    Some(h)
}

// Whether the leaf from a up to e comes behind the last entry, by two bytes; false where they do not tell.
fn is_behind(src: &[u8], a: usize, e: usize, entries: &[Entry]) -> bool
    requires { Bounds src.now entries.now × Rising src.now entries.now × (a ≤ e) × (e ≤ length src.now) }
    ensures { result ≡ true → Found (take (e - a) (drop a src.now)) src.now entries.now (length entries.now) false }
{
    if entries.is_empty() {
        return true;
    }
    let last = entries[entries.len() - 1];
    let x = last.start as usize;
    let y = last.end as usize;
    if y - x != SHORT_LEAF || e - a != SHORT_LEAF {
        return false;
    }
    src[x] < src[a] || (src[x] == src[a] && src[x + 1] < src[a + 1])
}

// A leaf that comes behind the last entry becomes the last.
fn append(entries: &mut [Entry], n: usize, src: &[u8], a: usize, e: usize, minus: bool) -> Put
    requires { (a ≤ e) × (e ≤ length src.now) × Asks₂ (Enter (take (e - a) (drop a src.now)) src.now entries.old n a) × Found (take (e - a) (drop a src.now)) src.now (take n entries.old) n false }
    ensures { Promises₂ (Enter (take (e - a) (drop a src.now)) src.now entries.old n a) (λ (l : Exps) (t : Term). Table src.now entries.new result.n (enter t (sign minus) l)) }
{
    entries[n] = Entry {
        start: a as u32,
        end: e as u32,
        power: unit(minus),
    };
    Put {
        n: n + 1,
        hint: n + 1,
    }
}

// The leaf from a up to e goes into the table likewise: factors mostly come in order, so that it mostly is the entry that is tried, or a new last one.
fn enter_leaf(entries: &mut [Entry], put: Put, src: &[u8], a: usize, e: usize, minus: bool) -> Put
    requires { (a ≤ e) × (e ≤ length src.now) × Asks₂ (Enter (take (e - a) (drop a src.now)) src.now entries.old put.n a) }
    ensures { Promises₂ (Enter (take (e - a) (drop a src.now)) src.now entries.old put.n a) (λ (l : Exps) (t : Term). Table src.now entries.new result.n (enter t (sign minus) l)) }
{
    let n = put.n;
    if let Some(h) = hinted(src, a, e, &entries[..n], put.hint) {
        entries[h].power += unit(minus);
        return Put { n: n, hint: h + 1 };
    }
    if is_behind(src, a, e, &entries[..n]) {
        return append(entries, n, src, a, e, minus);
    }
    enter(entries, put, src, &src[a..e], a, minus)
}

// The way of the term at a place.
pub fn way_at(src: &[u8], arities: &[u8], at: usize) -> Way
    ensures { result ≡ way_of (symbol_at src.now arities.now at) }
{
    match term::symbol_at(src, arities, at) {
        Some(Symbol::Leaf(_, _, e)) => Way::Leaf(e),
        Some(Symbol::Op(t, k, e)) => match t {
            term::ONE | term::MUL => Way::On(k as usize, e),
            term::INV => Way::Turn(k as usize, e),
            _ => Way::Factor,
        },
        None => Way::Factor,
    }
}

// The same where a term stands: a leaf of a small number, as most are, is told by its bytes.
fn way_there(src: &[u8], arities: &[u8], at: usize) -> Way
    requires { Asks₂ (OneAt arities.now src.now at) }
    ensures { result ≡ way_of (symbol_at src.now arities.now at) }
{
    let b = src[at];
    if b < FIRST_FUNCTION {
        let c = src[at + 1];
        if c < number::TOP_BIT {
            return Way::Leaf(at + SHORT_LEAF);
        }
    }
    way_at(src, arities, at)
}

// The term at a place is entered as a factor.
fn enter_at(
    entries: &mut [Entry],
    put: Put,
    src: &[u8],
    at: usize,
    arities: &[u8],
    minus: bool,
) -> Onward
    requires { Asks₂ (OneTerm arities.now src.now entries.old put.n at) }
    ensures { Promises₂ (OneTerm arities.now src.now entries.old put.n at) (λ (l : Exps) (t : Term). Entered src.now entries.new (at + length (encode t)) result (enter t (sign minus) l)) }
{
    let key = term::term_part(src, arities, at);
    let p = enter(entries, put, src, key, at, minus);
    Onward {
        at: at + key.len(),
        put: p,
        more: 0,
    }
}

// The term at a place: its factors go into the table, or its arguments are left to be walked.
#[cycle(collect_one_term)]
fn one_term(
    entries: &mut [Entry],
    put: Put,
    src: &[u8],
    at: usize,
    arities: &[u8],
    minus: bool,
) -> Onward
    requires { Asks₂ (OneTerm arities.now src.now entries.old put.n at) }
    ensures { Promises₂ (OneTerm arities.now src.now entries.old put.n at) (λ (l : Exps) (t : Term). Gone arities.now src.now entries.new at minus result l t) }
{
    match way_there(src, arities, at) {
        Way::On(c, next) => Onward {
            at: next,
            put: put,
            more: c,
        },
        Way::Turn(c, next) => {
            let f = collect(entries, put.n, src, next, c, arities, !minus);
            Onward {
                at: f.at,
                put: Put { n: f.n, hint: f.n },
                more: 0,
            }
        }
        Way::Leaf(e) => {
            let p = enter_leaf(entries, put, src, at, e, minus);
            Onward {
                at: e,
                put: p,
                more: 0,
            }
        }
        Way::Factor => enter_at(entries, put, src, at, arities, minus),
    }
}

// How many terms mul takes, by the table.
fn mul_takes(arities: &[u8]) -> usize
    ensures { result ≡ get_or arities.now mul_tag 0 }
{
    arities.get(term::MUL).copied().unwrap_or(0) as usize
}

// The factors of the k terms at a place go into the table of n entries, with a sign. Half of all symbols are mul: they are passed here.
#[cycle(collect_one_term)]
pub fn collect(
    entries: &mut [Entry],
    n: usize,
    src: &[u8],
    at: usize,
    k: usize,
    arities: &[u8],
    minus: bool,
) -> Filled
    requires { Asks₂ (Collect arities.now src.now entries.old n at k) }
    ensures { Promises₂ (Collect arities.now src.now entries.old n at k) (λ (l : Exps) (ts : Terms). Collected src.now entries.new (at + length (encodes ts)) result (pours minus ts l)) }
{
    let takes = mul_takes(arities);
    let mut i = at;
    let mut put = Put { n: n, hint: n };
    let mut left = k;
    // A while: a term may leave more terms than there were.
    while 0 < left {
        if src[i] == MUL {
            i += 1;
            left = left - 1 + takes;
            continue;
        }
        let o = one_term(entries, put, src, i, arities, minus);
        i = o.at;
        put = o.put;
        left = left - 1 + o.more;
    }
    Filled { at: i, n: put.n }
}
