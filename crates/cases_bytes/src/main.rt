// Runs the byte layer on the cases of standard input and writes a line for each: its number, and what was read.
#![tactic(auto)]

ghost use Rattle.std.specs.Prelude.{◌≤◌, length};
ghost use Rattle.octets.specs.Limits.{longest};

use case_file::Case;
use std::io;

// What a case is here.
enum Kind {
    Number,
    Term,
}

// Written out: no derive makes an enum of a number.
impl From<u8> for Kind {
    fn from(kind: u8) -> Self {
        if kind == 0 { Kind::Number } else { Kind::Term }
    }
}

// The tags of leaves and of built-in functions.
const BUILT_IN: usize = term::FIRST_FREE;

// Their arities.
const ARITIES: [u8; BUILT_IN] = *b"\xff\xff\xff\x00\x02\x02\x01\x02\x01\x01\x02\x01\x02";

// The arities of "29 aenc, 30 adec, 31 pk, 32 sign, 33 verify, 34 true", whose slots are behind those of the free functions.
const SIGNING: [u8; 6] = *b"\x02\x02\x01\x02\x03\x00";

// A slot for each tag.
const SLOTS: usize = term::TAGS;

fn show_number(rt: &impl Print, s: &[u8]) -> io::Result<()> {
    match number::read_number(s, 0) {
        Some((v, e)) => print!(rt; " value {v} next {e}"),
        None => print!(rt; " fault"),
    }
}

fn show_term(rt: &impl Print, s: &[u8], arities: &[u8]) -> io::Result<()>
    requires { length s.now ≤ longest }
{
    match term::term_end(s, arities, 0) {
        Some((e, n)) => print!(rt; " end {e} symbols {n}"),
        None => print!(rt; " fault"),
    }
}

// The table of slots for these free functions, as many of them as have one.
fn declare(free: &[u8]) -> [u8; SLOTS] {
    let mut arities = [term::UNDECLARED; SLOTS];
    let n = free.len().min(term::MOST_FUNCTIONS);
    arities[..BUILT_IN].copy_from_slice(&ARITIES);
    arities[BUILT_IN..BUILT_IN + n].copy_from_slice(&free[..n]);
    arities[term::FIRST_SIGNING..].copy_from_slice(&SIGNING);
    arities
}

fn show_case(rt: &impl Print, case: Case<'_>) -> io::Result<()> {
    match Kind::from(case.kind) {
        Kind::Number => show_number(rt, case.bytes),
        Kind::Term => show_term(rt, case.bytes, &declare(case.under)),
    }
}

fn main(rt: HostRuntime) -> io::Result<()> {
    case_file::show_cases(&rt, |case| show_case(&rt, case))
}
