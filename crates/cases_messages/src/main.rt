// Runs the call canonical form on the cases of standard input and writes a line for each: its number, and the bytes of the canonical form.
#![tactic(auto)]

use checker::Refusal;
use std::io;
use term::MOST_FUNCTIONS;

// The counts of a protocol file that has free functions alone, a byte each: those, fact symbols, rules.
const COUNTS: usize = 3;

// The room for a canonical form.
const OUTPUT: usize = 1024;

// The work area that the call asks for.
const WORK: usize = 65536;

// Bytes are written in hexadecimal; four at a time, since a print costs more than what it prints.
fn show_bytes(rt: &impl Print, s: &[u8]) -> io::Result<()> {
    let (fours, rest) = s.as_chunks::<4>();
    for [a, b, c, d] in fours {
        print!(rt; " {a:02X} {b:02X} {c:02X} {d:02X}")?;
    }
    for x in rest {
        print!(rt; " {x:02X}")?;
    }
    Ok(())
}

// The call with a work area of its own. A function of its own: where nothing follows the call, the compiled program need not clear the area.
fn form_of(protocol: &[u8], term: &[u8], output: &mut [u8]) -> Result<u32, Refusal> {
    let mut work = [0u8; WORK];
    checker::canonical_form(protocol, term, output, &mut work)
}

// The canonical form of a term under a protocol that declares these free functions and nothing else.
fn show_form(rt: &impl Print, free: &[u8], term: &[u8]) -> io::Result<()> {
    if MOST_FUNCTIONS < free.len() {
        return Ok(());
    }
    let mut protocol = [0u8; COUNTS + MOST_FUNCTIONS];
    protocol[0] = free.len() as u8;
    protocol[1..=free.len()].copy_from_slice(free);
    let mut output = [0u8; OUTPUT];
    match form_of(&protocol[..COUNTS + free.len()], term, &mut output) {
        Ok(n) => match output.get(..n as usize) {
            Some(form) => show_bytes(rt, form),
            None => Ok(()),
        },
        Err(r) => case_file::show_refusal(rt, r.number as usize, r.item as usize),
    }
}

fn main(rt: HostRuntime) -> io::Result<()> {
    case_file::show_cases(&rt, |case| show_form(&rt, case.under, case.bytes))
}
