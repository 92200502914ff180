// 10: "edge end missing, or source not earlier".
ghost use Rattle.std.specs.Prelude.{◌≡◌, List, ℕ, ◌*◌, ◌+◌, ◌≤◌, ◌<◌, length};
ghost use Rattle.lists.specs.Asks.{Asks₃, Promises₃};
ghost use Rattle.lists.specs.Lists.{first_bad};
ghost use Rattle.rewriting.specs.Graph.{Edge};
ghost use Rattle.rewriting.specs.Checker.{ends_ok};
ghost use Rattle.protocol.specs.Figures.{list_count};
ghost use Rattle.protocol.specs.Protocol.{Protocol};
ghost use Rattle.steps.specs.Nodes.{Node};
ghost use Rattle.steps.specs.Runs.{protocol_facts, rewrittens};
ghost use Rattle.graph.specs.Graph.{Graph, place_of};
ghost use Rattle.graph.specs.Table.{edge_fields, edge_at, NodesOf, GraphOf};
ghost use Rattle.graph.specs.Ends.{has_fact};

use crate::{edges, scan};
use facts::counts;
use protocol::figures;

// Whether node `node` has fact `index` in a list, both from 1.
fn end_there(p: &[u8], nodes: &[usize], n: usize, list: usize, node: usize, index: usize) -> bool
    requires { Asks₃ (NodesOf p.now nodes.now n) × (list < list_count) }
    ensures { Promises₃ (NodesOf p.now nodes.now n) (λ (s : List ℕ) (P : Protocol) (xs : List Node). result ≡ has_fact P list xs (place_of node index)) }
{
    if node == 0 {
        return false;
    }
    if n < node {
        return false;
    }
    if index == 0 {
        return false;
    }
    let count = counts::fact_count(p, nodes, node - 1, list);
    index <= count
}

// Whether both ends of edge j, from 0, are there, and its source is earlier.
fn ends_ok(p: &[u8], nodes: &[usize], n: usize, edges: &[u32], j: usize) -> bool
    requires { Asks₃ (NodesOf p.now nodes.now n) × (edge_fields * j + edge_fields ≤ length edges.now) }
    ensures { Promises₃ (NodesOf p.now nodes.now n) (λ (s : List ℕ) (P : Protocol) (xs : List Node). result ≡ ends_ok (protocol_facts P) (rewrittens P xs) (edge_at edges.now j)) }
{
    let from = edges::FIELDS * j + edges::SOURCE;
    let to = edges::FIELDS * j + edges::TARGET;
    let source = edges::number_at(edges, from);
    let target = edges::number_at(edges, to);
    let conclusion = edges::number_at(edges, from + 1);
    let premise = edges::number_at(edges, to + 1);
    let has_source = end_there(p, nodes, n, figures::CONCLUSIONS, source, conclusion);
    let has_target = end_there(p, nodes, n, figures::PREMISES, target, premise);
    has_source & (has_target & (source < target))
}

// The least edge that has not.
pub fn end_pass(p: &[u8], nodes: &[usize], n: usize, edges: &[u32], m: usize) -> Option<usize>
    requires { Asks₃ (GraphOf p.now nodes.now n edges.now m) }
    ensures { Promises₃ (GraphOf p.now nodes.now n edges.now m) (λ (s : List ℕ) (P : Protocol) (g : Graph). result ≡ first_bad (λ (k : ℕ) (e : Edge). ends_ok (protocol_facts P) (rewrittens P g.nodes) e) 1 g.edges) }
{
    scan::first_failing(m, |j| ends_ok(p, nodes, n, edges, j))
}
