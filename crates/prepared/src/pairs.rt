// A place in two bytes, the high one first.
ghost use Rattle.std.specs.Prelude.{◌≡◌, ◌+◌, ◌<◌, length};
ghost use Rattle.prepared.specs.Sections.{prepared_length, place_limit};
ghost use Rattle.prepared.specs.Pairs.{pair_at, paired};

// The place that stands at one.
pub fn read(p: &[u8], at: usize) -> usize
    requires { (at + 1 < length p.now) × (at < prepared_length) }
    ensures { result ≡ pair_at p.now at }
{
    usize::from(u16::from_be_bytes([p[at], p[at + 1]]))
}

// A place is written at one.
pub fn write(p: &mut [u8], at: usize, place: usize)
    requires { (at + 1 < length p.old) × (at < prepared_length) × (place < place_limit) }
    ensures { p.new ≡ paired p.old at place }
{
    p[at..at + 2].copy_from_slice(&(place as u16).to_be_bytes());
}
