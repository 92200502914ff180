// The line of a ruling.
ghost use Rattle.std.specs.Prelude.{◌≡◌, ◌∷◌, ◌++◌, [] as nothing, ◌+◌, ◌≤◌, length};
ghost use Rattle.octets.specs.Splice.{splice};
ghost use Rattle.checker.specs.Check.{ruled};
ghost use Rattle.checker.specs.Line as lines;
ghost use Rattle.checker.specs.Line.{Put, number_room, word_room, line_room};

use crate::{Counts, Refusal, Ruling};

// The room of the longest line: a word, three numbers and the line feed.
pub const LINE_ROOM: usize = WORD_ROOM + 3 * NUMBER_ROOM + 1;

const WORD_ROOM: usize = 7;

// A blank and the figures of a number of 64 bits.
const NUMBER_ROOM: usize = 21;

const TEN: usize = 10;

const ZERO: u8 = b'0';

// Writes the decimal figures of a number at a place, and gives the place behind them.
fn decimal(out: &mut [u8], at: usize, n: usize) -> usize
    requires { at + length (lines.decimal n) ≤ length out.old }
    ensures { Put out.old at (lines.decimal n) out.new result }
{
    if n < TEN {
        out[at] = ZERO + n as u8;
        return at + 1;
    }
    let last = decimal(out, at, n / TEN);
    out[last] = ZERO + (n % TEN) as u8;
    last + 1
}

// A blank and a number.
fn number(out: &mut [u8], at: usize, n: usize) -> usize
    requires { at + number_room ≤ length out.old }
    ensures wrote { Put out.old at (lines.blank ∷ lines.decimal n) out.new result }
    ensures fits { result ≤ at + number_room }
{
    out[at] = b' ';
    decimal(out, at + 1, n)
}

// The line feed.
fn finish(out: &mut [u8], at: usize) -> usize
    requires { at + 1 ≤ length out.old }
    ensures { Put out.old at (lines.numbers nothing) out.new result }
{
    out[at] = b'\n';
    at + 1
}

// The word of a graph that is accepted, and its counts.
fn counted(word: &[u8], c: Counts, out: &mut [u8]) -> usize
    requires { (length word.now ≤ word_room) × (line_room ≤ length out.old) }
    ensures wrote { Put out.old 0 (word.now ++ lines.numbers (c.nodes ∷ c.active ∷ c.edges ∷ nothing)) out.new result }
    ensures fits { result ≤ line_room }
{
    let first = octets::copy_into(out, 0, word);
    let second = number(out, first, c.nodes);
    let third = number(out, second, c.active);
    let end = number(out, third, c.edges);
    finish(out, end)
}

// The refusal's number and item.
fn refused(r: Refusal, out: &mut [u8]) -> usize
    requires { line_room ≤ length out.old }
    ensures wrote { Put out.old 0 (lines.refused_word ++ lines.numbers (r.number ∷ r.item ∷ nothing)) out.new result }
    ensures fits { result ≤ line_room }
{
    let first = octets::copy_into(out, 0, b"refused");
    let second = number(out, first, r.number as usize);
    let end = number(out, second, r.item as usize);
    finish(out, end)
}

// Writes the line of a ruling to the start of a buffer, the rest of which stays as it is, and gives its length.
pub fn line(ruling: Result<Ruling, Refusal>, out: &mut [u8; LINE_ROOM]) -> usize
    ensures wrote { out.new ≡ splice out.old 0 (lines.line_of (ruled ruling)) }
    ensures ends { result ≡ length (lines.line_of (ruled ruling)) }
    ensures fits { result ≤ line_room }
{
    match ruling {
        Ok(Ruling::Attack(c)) => counted(b"attack", c, out),
        Ok(Ruling::Run(c)) => counted(b"run", c, out),
        Err(r) => refused(r, out),
    }
}
