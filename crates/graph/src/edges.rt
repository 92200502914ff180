// The edges of a graph, read once, into a table of numbers.
ghost use Rattle.std.specs.Prelude.{◌≡◌, ◌≤◌, ◌<◌, length, get_or};
ghost use Rattle.graph.specs.Graph.{most_edges};
ghost use Rattle.graph.specs.Table.{FieldsOf};
ghost use Rattle.graph.specs.Table.Reading.{NumbersRead, EdgesFrom, EdgesRead};

// "count of edges (4,096)"
pub const MOST_EDGES: usize = 4096;

const EDGE_LIMIT: usize = MOST_EDGES + 1;

// "each source node, conclusion, target node, premise": the numbers of an edge in the table, and where each end begins.
pub const FIELDS: usize = 4;

pub const SOURCE: usize = 0;

pub const TARGET: usize = 2;

// The count of edges goes beside the table: its numbers are read and written one behind the other, and a slice of them as long as m edges
// would have m divided out of its length at each pass.
pub const TABLE: usize = FIELDS * MOST_EDGES;

// The numbers of a small file's edges: no more than its bytes.
pub const FEW_FIELDS: usize = 1024;

// k numbers go into the table; the place behind them.
fn read_numbers(s: &[u8], at: usize, k: usize, edges: &mut [u32]) -> Option<usize>
    requires { k ≤ length edges.old }
    ensures { NumbersRead s.now at k edges.new result }
{
    let mut i = at;
    for j in 0..k {
        let (v, e) = number::read_number(s, i)?;
        edges[j] = v;
        i = e;
    }
    Some(i)
}

// m edges: how many, and the place behind them. Each of their numbers takes a byte at least.
fn edges_from(s: &[u8], at: usize, m: usize, edges: &mut [u32]) -> Option<(usize, usize)>
    requires { (m ≤ most_edges) × FieldsOf s.now edges.old }
    ensures { EdgesFrom s.now at m edges.new result }
{
    let k = FIELDS * m;
    if s.len() < k {
        return None;
    }
    let e = read_numbers(s, at, k, edges)?;
    Some((m, e))
}

// The count, 4,096 at most, and the edges: how many, and the place behind them.
pub fn read_edges(s: &[u8], at: usize, edges: &mut [u32]) -> Option<(usize, usize)>
    requires { FieldsOf s.now edges.old }
    ensures { EdgesRead s.now at edges.new result }
{
    let (m, e) = number::below(s, at, EDGE_LIMIT)?;
    edges_from(s, e, m as usize, edges)
}

// A number of the table.
pub fn number_at(edges: &[u32], i: usize) -> usize
    requires { i < length edges.now }
    ensures { result ≡ get_or edges.now i 0 }
{
    edges[i] as usize
}
