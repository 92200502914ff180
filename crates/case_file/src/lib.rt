// What the test programs share: the cases of standard input, and how a refusal is shown.
// The input is a case behind the other: 0 for a number, 1 for a term, 2 for a step list, 3 for a graph, 4 for a property; the length of what
// the case is read under, and that: the arity of each free function, or a protocol file; the length of the bytes; the bytes. Those of a
// property are the length of its file, its file, and a step list. A length is two bytes, low byte first.
#![tactic(auto)]

ghost use Rattle.std.specs.Prelude.{◌≡◌, ◌≤◌, ◌+◌, ◌++◌, ◌<◌, ◌*◌, length, drop, slice_index, vec_len, IfOk, IfSome, MatchOption};
ghost use Rattle.std.specs.Iterator.{at_most};
ghost use Rattle.case_file.specs.Room.{room};

use std::io;
use std::io::Read;

// The room for the input.
const ROOM: usize = 65536;

// A case of the input: its number from 1, its kind, what it is read under, and its bytes.
#[derive(Clone, Copy)]
pub struct Case<'a> {
    pub number: usize,
    pub kind: u8,
    pub under: &'a [u8],
    pub bytes: &'a [u8],
    ghost short: { length under.now + length bytes.now ≤ room },
}

// The cases of an input that are left: how many came before, and the bytes behind those.
#[derive(Drop)]
pub struct Cases<'a> {
    before: usize,
    rest: &'a [u8],
    ghost within: { before + length rest.now ≤ room },
}

// Document 01's refusal.
pub fn show_refusal(rt: &impl Print, number: usize, item: usize) -> io::Result<()> {
    print!(rt; " refused {number} {item}")
}

// What stands behind its length, and what follows; nothing where it is cut off.
pub fn counted(s: &[u8]) -> Option<(&[u8], &[u8])>
    ensures parts { IfSome result (λ r. r.0.now ++ r.1.now ≡ drop 2 s.now) }
    ensures lengths { IfSome result (λ r. length r.0.now + length r.1.now + 2 ≡ length s.now) }
    ensures told { let n = slice_index s.now 0 + 256 * slice_index s.now 1 in MatchOption result (length s.now < 2 + n) (λ r. length r.0.now ≡ n) }
{
    let (n, rest) = s.split_first_chunk::<2>()?;
    rest.split_at_checked(usize::from(u16::from_le_bytes(*n)))
}

impl<'a> Cases<'a> {
    // The cases of an input; they end before one that is cut off.
    pub fn of(input: &'a [u8]) -> Self
        requires { length input.now ≤ room }
        ensures { (result.before ≡ 0) × (result.rest.now ≡ input.now) }
    {
        Cases {
            before: 0,
            rest: input,
        }
    }
}

impl<'a> Iterator for Cases<'a> {
    type Item = Case<'a>;

    ghost use Rattle.case_file.specs.Case.{Follows};

    ghost next_gives = { Follows };

    ghost remaining = { λ c. at_most (length c.rest.now) };

    fn next(&mut self) -> Option<Case<'a>> {
        let (kind, rest) = self.rest.split_first()?;
        let (under, rest) = counted(rest)?;
        let (bytes, rest) = counted(rest)?;
        let number = self.before + 1;
        *self = Cases {
            before: number,
            rest,
        };
        Some(Case {
            number,
            kind: *kind,
            under,
            bytes,
        })
    }
}

// Reads standard input, as far as there is room. The one error is that of a read or of memory.
pub fn read<R: Input + AllocGlobal>(rt: &R) -> io::Result<Vec<u8>>
    ensures { IfOk result (λ v. vec_len v ≤ room) }
{
    let mut input = Vec::new(rt.alloc());
    rt.reader().take(ROOM as u64).read_to_end(&mut input)?;
    input.truncate(ROOM); // no clause says that the reader gave no more
    Ok(input)
}

// Shows the cases of standard input, a line for each: its number, and what is shown of it. The one error is that of a read, of a write, or of
// memory.
pub fn show_cases<R: Input + Print + AllocGlobal, F: Fn(Case<'_>) -> io::Result<()>>(
    rt: &R,
    show: F,
) -> io::Result<()>
    requires { F.IsAlwaysCallable show }
{
    let input = read(rt)?;
    for case in Cases::of(&input) {
        rt.print(case.number)?;
        show(case)?;
        println!(rt)?;
    }
    Ok(())
}
