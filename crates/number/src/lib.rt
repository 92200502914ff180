// Numbers in the files: groups of seven bits, lowest first.
#![tactic(auto)]

ghost use Rattle.std.specs.Prelude.{◌≡◌, ◌+◌, ◌-◌, ◌^◌, ◌≤◌, ◌<◌, length};
ghost use Rattle.octets.specs.Splice.{splice};
ghost use Rattle.number.specs.Groups.{groups, base, most_groups};
ghost use Rattle.number.specs.Reading.{read_number, below, as_read, joined, got};

// "groups of seven bits": a group that another follows is from BASE on, so a byte below TOP_BIT is a whole number.
const BITS: usize = 7;

const BASE: u32 = 1 << BITS;

const LOW_BITS: u32 = BASE - 1;

pub const TOP_BIT: u8 = 1 << BITS;

// "A number may have four groups", and the limit that follows.
pub const MOST_GROUPS: usize = 4;

pub const NUMBER_LIMIT: usize = 1 << (BITS * MOST_GROUPS);

// Groups of value `low`, and the rest of the number behind them, which counts `weight` times.
fn joined(low: u32, weight: u32, v: u32, e: usize) -> Option<(u32, usize)>
    requires { (low < weight) × (weight ≤ base ^ (most_groups - 1)) × (v < base) }
    ensures { as_read result ≡ joined low weight (got v e) }
{
    if v == 0 {
        return None;
    }
    Some((low + weight * v, e))
}

// The number at a place. A fault: the end of the slice, a group past the last, a form that is not the shortest.
// Nearly all numbers are one group: it is read in front of the loop. The slice is handed on to no call, for which it would be laid on the stack.
pub fn read_number(file: &[u8], at: usize) -> Option<(u32, usize)>
    ensures { as_read result ≡ read_number file.now at }
{
    if file.len() <= at {
        return None;
    }
    let b = file[at];
    if b < TOP_BIT {
        return Some((b as u32, at + 1));
    }
    let mut low = (b - TOP_BIT) as u32;
    let mut weight = BASE;
    for i in at + 1..at + MOST_GROUPS {
        if file.len() <= i {
            return None;
        }
        let c = file[i];
        if c < TOP_BIT {
            return joined(low, weight, c as u32, i + 1);
        }
        low += (c - TOP_BIT) as u32 * weight;
        weight *= BASE;
    }
    None
}

// A number below n.
pub fn below(file: &[u8], at: usize, n: usize) -> Option<(u32, usize)>
    ensures { as_read result ≡ below file.now n at }
{
    let (v, e) = read_number(file, at)?;
    if (v as usize) < n { Some((v, e)) } else { None }
}

// How many bytes a number takes.
pub fn number_len(n: u32) -> usize
    ensures { result ≡ length (groups n) }
{
    let mut rest = n;
    let mut len: usize = 1;
    // A while, here and in `write_number`: the rest shrinks by shifts, and no range or list is walked.
    while BASE <= rest {
        rest = rest >> BITS;
        len += 1;
    }
    len
}

// Writes a number at a place where there is room for it, and gives the place behind it.
pub fn write_number(out: &mut [u8], at: usize, n: u32) -> usize
    requires { at + length (groups n) ≤ length out.old }
    ensures next { result ≡ at + length (groups n) }
    ensures wrote { out.new ≡ splice out.old at (groups n) }
{
    let mut rest = n;
    let mut i = at;
    while BASE <= rest {
        out[i] = (BASE + (rest & LOW_BITS)) as u8;
        rest = rest >> BITS;
        i += 1;
    }
    out[i] = rest as u8;
    i + 1
}
