// Terms in the files: prefix order, tag first.
#![tactic(auto)]

ghost use Rattle.std.specs.Prelude.{◌≡◌, ◌≤◌, ◌<◌, ◌+◌, length};
ghost use Rattle.octets.specs.Limits.{longest};
ghost use Rattle.number.specs.Reading.{read_number, many};
ghost use Rattle.term.specs.Tags.{first_function};
ghost use Rattle.term.specs.Arity.{arity};
ghost use Rattle.term.specs.Reader.{name_at, op_at, symbol_at, term};
ghost use Rattle.term.specs.Walk.{hits, walked, walks, ended, endeds, bytes_of};
ghost use Rattle.term.specs.Walk.Laws.{step_of};

// "0 variable and its number; 1 public name and its number; 2 fresh name and its number"
pub const VARIABLE: usize = 0;

pub const PUBLIC: usize = 1;

pub const FRESH: usize = 2;

// "3 one; 4 enc; 5 dec; 6 h; 7 pair; 8 fst; 9 snd; 10 exp; 11 inv; 12 mul"
pub const ONE: usize = 3;

pub const ENC: usize = 4;

pub const DEC: usize = 5;

pub const PAIR: usize = 7;

pub const FST: usize = 8;

pub const SND: usize = 9;

pub const EXP: usize = 10;

pub const INV: usize = 11;

pub const MUL: usize = 12;

// The tags of functions begin here; "13+j free function j (j from 0)", of which there are 16 at most.
pub const FIRST_FUNCTION: usize = ONE;

pub const FIRST_FREE: usize = 13;

pub const MOST_FUNCTIONS: usize = 16;

// "29 aenc, 30 adec, 31 pk, 32 sign, 33 verify, 34 true": behind the free functions.
pub const FIRST_SIGNING: usize = FIRST_FREE + MOST_FUNCTIONS;

pub const ADEC: usize = 30;

pub const VERIFY: usize = 33;

pub const TAGS: usize = FIRST_SIGNING + 6;

// The slot of a tag that no function has.
pub const UNDECLARED: u8 = 255;

// "at most 256 symbols", and the bytes that are kept free for a term: for each symbol a tag, and a number of the most groups.
pub const MOST_SYMBOLS: usize = 256;

const SYMBOL_ROOM: usize = 1 + number::MOST_GROUPS;

pub const TERM_ROOM: usize = SYMBOL_ROOM * MOST_SYMBOLS;

// "Fresh and public names are two incomparable sets, each numbered from 0."
#[derive(Drop)]
pub struct Fresh(pub u32);

#[derive(Drop)]
pub struct Public(pub u32);

// What begins at a place: a leaf with its tag and number, or a function with its tag and arity; and the place behind it.
#[derive(Drop)]
pub enum Symbol {
    Leaf(usize, u32, usize),
    Op(usize, u8, usize),
}

// Terms that were walked: the place behind them, their symbols, whether the test hit.
#[derive(Clone, Copy)]
pub struct Walk {
    pub end: usize,
    pub size: usize,
    pub hit: bool,
}

// What a walk looks for: leaves of a kind, their numbers from lo on and below hi.
#[derive(Clone, Copy)]
pub struct Leaves {
    pub kind: usize,
    pub lo: usize,
    pub hi: usize,
}

// All variables.
pub const VARIABLES: Leaves = Leaves {
    kind: VARIABLE,
    lo: 0,
    hi: number::NUMBER_LIMIT,
};

// For a walk that is only to tell the place behind.
const NO_LEAVES: Leaves = Leaves {
    kind: VARIABLE,
    lo: 0,
    hi: 0,
};

// The function of a tag, and the place behind the tag.
fn op_at(arities: &[u8], tag: usize, next: usize) -> Option<Symbol>
    requires { first_function ≤ tag }
    ensures { result ≡ op_at tag (arity arities.now tag) next }
{
    let k = arities.get(tag).copied().unwrap_or(UNDECLARED);
    if k == UNDECLARED {
        return None;
    }
    Some(Symbol::Op(tag, k, next))
}

// The leaf of a tag, its number at a place.
fn leaf_at(file: &[u8], tag: usize, at: usize) -> Option<Symbol>
    ensures { result ≡ name_at tag (read_number file.now at) }
{
    let (n, e) = number::read_number(file, at)?;
    Some(Symbol::Leaf(tag, n, e))
}

// The symbol at a place.
pub fn symbol_at(file: &[u8], arities: &[u8], at: usize) -> Option<Symbol>
    ensures { result ≡ symbol_at file.now arities.now at }
{
    let (t, e) = number::read_number(file, at)?;
    let tag = t as usize;
    if tag < FIRST_FUNCTION {
        return leaf_at(file, tag, e);
    }
    op_at(arities, tag, e)
}

// Whether a leaf is of that kind, from lo on and below hi.
fn hit(w: Leaves, t: usize, n: usize) -> bool
    ensures { result ≡ hits w.kind w.lo w.hi t n }
{
    t == w.kind && (w.lo..w.hi).contains(&n)
}

fn one_symbol(file: &[u8], arities: &[u8], at: usize, w: Leaves) -> Option<(u8, bool, usize)>
    ensures { result ≡ step_of w.kind w.lo w.hi (symbol_at file.now arities.now at) }
{
    let y = symbol_at(file, arities, at)?;
    match y {
        Symbol::Leaf(t, n, e) => Some((0, hit(w, t, n as usize), e)),
        Symbol::Op(_, k, e) => Some((k, false, e)),
    }
}

// Walks k terms from a place on, and tells whether a leaf of that kind, from lo on and below hi, stands in one of them.
pub fn walk_terms(file: &[u8], arities: &[u8], at: usize, k: usize, w: Leaves) -> Option<Walk>
    requires { (length file.now ≤ longest) × (k ≤ longest) }
    ensures { result ≡ walks w.kind w.lo w.hi (many (term file.now arities.now) k at) }
{
    let mut i = at;
    let mut pending = k;
    let mut count: usize = 0;
    let mut found = false;
    // A while: each symbol says how many terms are still to come, and no range or list is walked.
    while 0 < pending {
        let (n, h, e) = one_symbol(file, arities, i, w)?;
        pending = pending - 1 + n as usize;
        found = found | h;
        i = e;
        count += 1;
    }
    Some(Walk {
        end: i,
        size: count,
        hit: found,
    })
}

// The same for one term.
pub fn walk_term(file: &[u8], arities: &[u8], at: usize, w: Leaves) -> Option<Walk>
    requires { length file.now ≤ longest }
    ensures { result ≡ walked w.kind w.lo w.hi (term file.now arities.now at) }
{
    walk_terms(file, arities, at, 1, w)
}

// Passes over k terms from a place on.
pub fn terms_end(file: &[u8], arities: &[u8], at: usize, k: usize) -> Option<(usize, usize)>
    requires { (length file.now ≤ longest) × (k ≤ longest) }
    ensures { result ≡ endeds (many (term file.now arities.now) k at) }
{
    let walk = walk_terms(file, arities, at, k, NO_LEAVES)?;
    Some((walk.end, walk.size))
}

// Passes over the term at a place.
pub fn term_end(file: &[u8], arities: &[u8], at: usize) -> Option<(usize, usize)>
    requires { length file.now ≤ longest }
    ensures { result ≡ ended (term file.now arities.now at) }
{
    terms_end(file, arities, at, 1)
}

// The bytes of the term at a place, as a part of the caller's slice; none where no term stands.
pub fn term_part<'a>(file: &'a [u8], arities: &[u8], at: usize) -> &'a [u8]
    requires { length file.now ≤ longest }
    ensures { result.now ≡ bytes_of (term file.now arities.now at) }
{
    match term_end(file, arities, at) {
        Some((e, _)) => &file[at..e],
        None => &file[..0],
    }
}
