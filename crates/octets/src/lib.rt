// Byte strings: order, equality, copying, clearing. Each contract says every byte of the slice at exit.
#![tactic(auto)]

ghost use Rattle.std.specs.Prelude.{◌≡◌, ◌+◌, ◌≤◌, length, take, drop, replicate};
ghost use Rattle.octets.specs.Splice.{splice};
ghost use Rattle.octets.specs.Compare.{compare_bytes, is_equal};

use std::cmp::Ordering;

// The order of two byte strings: the first difference decides.
pub fn compare_bytes(a: &[u8], b: &[u8]) -> Ordering
    ensures { result ≡ compare_bytes a.now b.now }
{
    a.cmp(b)
}

// Whether they are the same.
pub fn same_bytes(a: &[u8], b: &[u8]) -> bool
    ensures { result ≡ is_equal (compare_bytes a.now b.now) }
{
    a == b
}

// Copies a whole slice to a place of another, and gives the place behind it.
pub fn copy_into(out: &mut [u8], at: usize, src: &[u8]) -> usize
    requires { at + length src.now ≤ length out.old }
    ensures next { result ≡ at + length src.now }
    ensures wrote { out.new ≡ splice out.old at src.now }
{
    // A loop of ours, which becomes `memcpy`: the library's copy calls `memmove`, and the archive calls nothing but `memcpy` and `memset`.
    for i in 0..src.len() {
        out[at + i] = src[i];
    }
    at + src.len()
}

// Copies bytes to another place of the same slice; the two places may overlap.
pub fn copy_within(out: &mut [u8], from: usize, to: usize, len: usize)
    requires { (from + len ≤ length out.old) × (to + len ≤ length out.old) }
    ensures { out.new ≡ splice out.old to (take len (drop from out.old)) }
{
    out.copy_within(from..from + len, to);
}

// Makes a whole slice zeros.
pub fn clear(out: &mut [u8])
    ensures { out.new ≡ replicate (length out.old) 0 }
{
    out.fill(0);
}
