// The entries of the tables, in order.
ghost use Rattle.std.specs.Prelude.{◌≡◌, ◌<◌, length};
ghost use Rattle.judge.specs.Tables.{total, Past, Of};

// The trace in numbers: for each node the number of entries before it, for each entry its symbol, for each argument its class; and the class of
// the first public name.
#[derive(Clone, Copy)]
pub struct Tables<'a> {
    pub starts: &'a [u32],
    pub symbols: &'a [u32],
    pub classes: &'a [u32],
    pub base: u32,
}

// How many there are.
pub fn total(starts: &[u32]) -> usize
    requires { 0 < length starts.now }
    ensures { result ≡ total starts.now }
{
    starts[starts.len() - 1] as usize
}

// The node of entry e, which is this one or a later one.
pub fn node_of(starts: &[u32], from: usize, e: usize) -> usize
    requires { Past starts.now from e × (e < total starts.now) }
    ensures { Of starts.now result e }
{
    let mut node = from;
    // A while: the entries of the next node tell where it ends, and no count of turns is known.
    while starts[node + 1] as usize <= e {
        node += 1;
    }
    node
}
