// What stands at a place of a property file, in numbers. Where nothing readable stands the answer is free.
ghost use Rattle.std.specs.Prelude.{◌≡◌, ◌≤◌};
ghost use Rattle.protocol.specs.Figures.{most_fact_arity};
ghost use Rattle.judge.specs.Tables.{arity_in};
ghost use Rattle.judge.specs.Reading.{NumberIs, TermIs, TermsAre, SortsAre, FactIs, HeadIs};

use crate::figures;

// A number and the place behind it.
#[derive(Clone, Copy)]
pub struct Num {
    pub value: usize,
    pub next: usize,
}

// The codes of terms: a variable's number, or a public name's behind those of all variables.
#[derive(Clone, Copy)]
pub struct Codes {
    pub codes: [u32; figures::ARITY],
    pub next: usize,
}

// A fact and its time variable: the symbol, how many terms, the variable, the terms' codes; and the place behind them.
#[derive(Clone, Copy)]
pub struct Coded {
    pub symbol: usize,
    pub count: usize,
    pub time: usize,
    pub codes: [u32; figures::ARITY],
    pub next: usize,
}

// What stands before a quantifier's body: whether it is for all, how many variables are new, the guard.
#[derive(Clone, Copy)]
pub struct Guard {
    pub every: bool,
    pub fresh: usize,
    pub fact: Coded,
}

// A number. Where none stands the answer is free, since the file has passed; an Option would ask of `holds` to fail.
pub fn read(file: &[u8], at: usize) -> Num
    ensures { NumberIs file.now at result }
{
    let (v, e) = number::read_number(file, at).unwrap_or((0, 0));
    Num {
        value: v as usize,
        next: e,
    }
}

// A term's code.
pub fn term(file: &[u8], at: usize) -> Num
    ensures { TermIs file.now at result }
{
    let tag = read(file, at);
    let n = read(file, tag.next);
    if tag.value == term::VARIABLE {
        return n;
    }
    Num {
        value: figures::SCOPE + n.value,
        next: n.next,
    }
}

// The codes of k terms.
fn terms(file: &[u8], at: usize, k: usize) -> Codes
    requires { k ≤ most_fact_arity }
    ensures { TermsAre file.now at k result }
{
    let mut codes = [0u32; figures::ARITY];
    let mut i = at;
    for j in 0..k {
        let t = term(file, i);
        codes[j] = t.value as u32;
        i = t.next;
    }
    Codes { codes, next: i }
}

// The place behind k sorts.
fn pass_sorts(file: &[u8], at: usize, k: usize) -> usize
    ensures { SortsAre file.now at k result }
{
    let mut i = at;
    for _ in 0..k {
        i = read(file, i).next;
    }
    i
}

// The arity of a fact symbol; 0 where none is declared, as `arity_in` has it.
fn arity(arities: &[u8], symbol: usize) -> usize
    ensures { result ≡ arity_in arities.now symbol }
{
    let k = usize::from(*arities.get(symbol).unwrap_or(&0));
    if figures::ARITY < k {
        return 0;
    }
    k
}

// A fact and its time variable.
pub fn read_fact(file: &[u8], at: usize, arities: &[u8]) -> Coded
    ensures { FactIs file.now arities.now at result }
{
    let y = read(file, at);
    let count = arity(arities, y.value);
    let ts = terms(file, y.next, count);
    let codes = ts.codes;
    let t = read(file, ts.next);
    Coded {
        symbol: y.value,
        count,
        time: t.value,
        codes,
        next: t.next,
    }
}

// What stands before a quantifier's body.
pub fn read_guard(file: &[u8], at: usize, arities: &[u8], every: bool) -> Guard
    ensures { HeadIs file.now arities.now at result × (result.every ≡ every) }
{
    let fresh = read(file, at);
    let k = pass_sorts(file, fresh.next, fresh.value);
    let fact = read_fact(file, k, arities);
    Guard {
        every,
        fresh: fresh.value,
        fact,
    }
}
