// A graph file, front to back for 3 and 6: the nodes and the edges go into their tables.
ghost use Rattle.std.specs.Prelude.{◌≤◌, length};
ghost use Rattle.lists.specs.Asks.{Asks, Promises};
ghost use Rattle.octets.specs.Limits.{longest};
ghost use Rattle.protocol.specs.Protocol.{Protocol};
ghost use Rattle.prepared.specs.Prepared.{Prepared};
ghost use Rattle.steps.specs.Table.{RowsOf};
ghost use Rattle.graph.specs.Table.{FieldsOf};
ghost use Rattle.graph.specs.Reading.{BehindNodes, GraphTold};

use crate::edges;
use steps::nodes;
use steps::nodes::NodesFault;

// Behind the nodes: how many edges there are, and nothing behind them.
fn behind_nodes(s: &[u8], at: usize, edges: &mut [u32]) -> Option<usize>
    requires { FieldsOf s.now edges.old }
    ensures { BehindNodes s.now at edges.new result }
{
    let (m, e) = edges::read_edges(s, at, edges)?;
    if e != s.len() {
        return None;
    }
    Some(m)
}

// How many nodes and edges there are.
pub fn read_graph(
    p: &[u8],
    s: &[u8],
    nodes: &mut [usize],
    edges: &mut [u32],
) -> Result<(usize, usize), NodesFault>
    requires { Asks (Prepared p.now) × (length s.now ≤ longest) × RowsOf s.now 0 nodes.old × FieldsOf s.now edges.old }
    ensures { Promises (Prepared p.now) (λ (P : Protocol). GraphTold P p.now s.now nodes.new edges.new result) }
{
    let (n, e) = nodes::read_nodes(p, s, 0, nodes)?;
    let m = behind_nodes(s, e, edges).ok_or(NodesFault::Broken)?;
    Ok((n, m))
}
