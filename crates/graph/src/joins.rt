// 11: "facts differ".
ghost use Rattle.std.specs.Prelude.{◌≡◌, List, ℕ};
ghost use Rattle.lists.specs.Asks.{Asks₂, Promises₂};
ghost use Rattle.lists.specs.Lists.{first_bad};
ghost use Rattle.rewriting.specs.Graph.{Edge};
ghost use Rattle.rewriting.specs.Checker.{facts_ok};
ghost use Rattle.protocol.specs.Protocol.{Protocol};
ghost use Rattle.steps.specs.Nodes.{Node};
ghost use Rattle.steps.specs.Runs.{protocol_facts, rewrittens};
ghost use Rattle.facts.specs.Writing.{fact_room};
ghost use Rattle.facts.specs.Calls.{Room};
ghost use Rattle.graph.specs.Graph.{Graph};
ghost use Rattle.graph.specs.Table.{edge_at};
ghost use Rattle.graph.specs.Joins.{EdgeIn, EndedIn};

use crate::edges;
use facts::compare;
use facts::nodes::FactId;
use protocol::figures;

// Whether the two facts of edge j, from 0, are the same. Both ends are there.
fn facts_ok(out: &mut [u8], p: &[u8], s: &[u8], nodes: &[usize], edges: &[u32], j: usize) -> bool
    requires { Asks₂ (EdgeIn p.now s.now nodes.now edges.now j) × Room out.old fact_room }
    ensures { Promises₂ (EdgeIn p.now s.now nodes.now edges.now j) (λ (P : Protocol) (xs : List Node). result ≡ facts_ok (protocol_facts P) (rewrittens P xs) (edge_at edges.now j)) }
{
    let from = edges::FIELDS * j + edges::SOURCE;
    let to = edges::FIELDS * j + edges::TARGET;
    let source = FactId {
        node: edges::number_at(edges, from) - 1,
        list: figures::CONCLUSIONS,
        number: edges::number_at(edges, from + 1) - 1,
    };
    let target = FactId {
        node: edges::number_at(edges, to) - 1,
        list: figures::PREMISES,
        number: edges::number_at(edges, to + 1) - 1,
    };
    compare::same_fact(out, p, s, nodes, source, target)
}

// The least edge whose facts differ. A loop of its own: the test writes into the lent part, so that a closure would tell nothing of an earlier turn.
pub fn fact_pass(
    out: &mut [u8],
    p: &[u8],
    s: &[u8],
    nodes: &[usize],
    n: usize,
    edges: &[u32],
    m: usize,
) -> Option<usize>
    requires { Asks₂ (EndedIn p.now s.now nodes.now n edges.now m) × Room out.old fact_room }
    ensures { Promises₂ (EndedIn p.now s.now nodes.now n edges.now m) (λ (P : Protocol) (g : Graph). result ≡ first_bad (λ (k : ℕ) (e : Edge). facts_ok (protocol_facts P) (rewrittens P g.nodes) e) 1 g.edges) }
{
    for j in 0..m {
        if !facts_ok(out, p, s, nodes, edges, j) {
            return Some(j + 1);
        }
    }
    None
}
