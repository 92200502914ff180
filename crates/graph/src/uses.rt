// How often each fact of a list of the nodes is an end of an edge: a byte for each, which stays at 2.
ghost use Rattle.std.specs.Prelude.{◌≡◌, ◌<◌, ◌+◌, length};
ghost use Rattle.graph.specs.Table.{end_at};
ghost use Rattle.graph.specs.Uses.{one_more, count_place, EndInside, EndsInside, Counted};

use crate::edges;
use protocol::figures;

// One byte for each fact that a list of a node can have.
pub const COUNTS: usize = figures::MOST_FACTS * steps::nodes::MOST_NODES;

// More than once: no cause asks how often.
const TWICE: u8 = 2;

// It stays at 2: the least of a sum would have to be shown to fit first.
fn one_more(count: u8) -> u8
    ensures { result ≡ one_more count }
{
    if count < TWICE {
        return count + 1;
    }
    TWICE
}

// Where the count of the end at place i of the table of edges stands.
fn count_place(edges: &[u32], i: usize) -> usize
    requires { (i + 1 < length edges.now) × EndInside (end_at edges.now i) }
    ensures { result ≡ count_place (end_at edges.now i) }
{
    figures::MOST_FACTS * (edges::number_at(edges, i) - 1) + (edges::number_at(edges, i + 1) - 1)
}

// Counts the ends of m edges that begin at a field of them, in a part that has a count for each.
pub fn count_ends(edges: &[u32], m: usize, field: usize, counts: &mut [u8])
    requires { EndsInside edges.now m field (length counts.old) }
    ensures { Counted edges.now m field counts.new }
{
    octets::clear(counts);
    for j in 0..m {
        let at = count_place(edges, edges::FIELDS * j + field);
        counts[at] = one_more(counts[at]);
    }
}
