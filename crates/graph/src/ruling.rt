// The ruling of a graph file: "front to back for 3 and 6, then 7 to 13".
ghost use Rattle.std.specs.Prelude.{List, ℕ, ◌*◌, ◌≤◌, length};
ghost use Rattle.lists.specs.Asks.{Asks, Promises, Asks₂, Promises₂, Asks₃, Promises₃};
ghost use Rattle.octets.specs.Limits.{longest};
ghost use Rattle.protocol.specs.Figures.{most_facts};
ghost use Rattle.protocol.specs.Protocol.{Protocol};
ghost use Rattle.prepared.specs.Prepared.{Prepared};
ghost use Rattle.steps.specs.Table.{RowsOf};
ghost use Rattle.graph.specs.Graph.{Graph};
ghost use Rattle.graph.specs.Table.{FieldsOf, GraphIn, ReadIn};
ghost use Rattle.graph.specs.Joins.{EndedOf};
ghost use Rattle.graph.specs.Area.{Area};
ghost use Rattle.graph.specs.Ruling.{uses_ruling, edges_ruling, Decided, ReadDecided, Answered};

use crate::{area, ends, joins, passes, reading};
use protocol::figures;
use rewriting::{Refusal, refuse};
use steps::ruling;

// 12 and 13 of a graph of which 10 is absent. As many counts are cleared as its nodes can need.
fn rule_uses(
    p: &[u8],
    nodes: &[usize],
    n: usize,
    edges: &[u32],
    m: usize,
    uses: &mut [u8],
) -> Result<(), Refusal>
    requires { Asks₃ (EndedOf p.now nodes.now n edges.now m) × (most_facts * n ≤ length uses.old) }
    ensures { Promises₃ (EndedOf p.now nodes.now n edges.now m) (λ (s : List ℕ) (P : Protocol) (g : Graph). Decided (uses_ruling P g) g result) }
{
    refuse(
        rewriting::NOT_ONE_EDGE,
        passes::premise_pass(p, nodes, n, edges, m, uses),
    )?;
    refuse(
        rewriting::USED_TWICE,
        passes::conclusion_pass(p, nodes, n, edges, m, uses),
    )
}

// 10 to 13 of right nodes and their edges.
fn rule_edges(
    p: &[u8],
    s: &[u8],
    nodes: &[usize],
    n: usize,
    edges: &[u32],
    m: usize,
    work: &mut [u8],
) -> Result<(), Refusal>
    requires { Asks₂ (GraphIn p.now s.now nodes.now n edges.now m) × Area work.old }
    ensures { Promises₂ (GraphIn p.now s.now nodes.now n edges.now m) (λ (P : Protocol) (g : Graph). Decided (edges_ruling P g) g result) }
{
    refuse(
        rewriting::END_MISSING,
        ends::end_pass(p, nodes, n, edges, m),
    )?;
    let facts = &mut work[area::FACTS..area::FACTS_END];
    refuse(
        rewriting::FACTS_DIFFER,
        joins::fact_pass(facts, p, s, nodes, n, edges, m),
    )?;
    rule_uses(
        p,
        nodes,
        n,
        edges,
        m,
        &mut work[area::COUNTS..area::COUNTS + figures::MOST_FACTS * n],
    )
}

// 7 to 13 of nodes and edges that were read.
fn rule_read(
    p: &[u8],
    s: &[u8],
    nodes: &[usize],
    n: usize,
    edges: &[u32],
    m: usize,
    work: &mut [u8],
) -> Result<(), Refusal>
    requires { Asks₂ (ReadIn p.now s.now nodes.now n edges.now m) × Area work.old }
    ensures { Promises₂ (ReadIn p.now s.now nodes.now n edges.now m) (λ (P : Protocol) (g : Graph). ReadDecided P g result) }
{
    ruling::rule_nodes(p, s, nodes, n)?;
    rule_edges(p, s, nodes, n, edges, m, work)
}

// 3 and 6 to 13 of a graph file: how many nodes and edges there are. Their tables are filled in.
pub fn rule_graph(
    p: &[u8],
    s: &[u8],
    nodes: &mut [usize],
    edges: &mut [u32],
    work: &mut [u8],
) -> Result<(usize, usize), Refusal>
    requires { Asks (Prepared p.now) × (length s.now ≤ longest) × RowsOf s.now 0 nodes.old × FieldsOf s.now edges.old × Area work.old }
    ensures { Promises (Prepared p.now) (λ (P : Protocol). Answered P p.now s.now nodes.new result) }
{
    match reading::read_graph(p, s, nodes, edges) {
        Ok((n, m)) => {
            rule_read(p, s, nodes, n, edges, m, work)?;
            Ok((n, m))
        }
        Err(fault) => Err(ruling::fault_refusal(fault, rewriting::GRAPH_ITEM)),
    }
}
