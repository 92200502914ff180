// 14: a source for each premise, nodes in order and premises in order. The edges go into their table.
ghost use Rattle.std.specs.Prelude.{◌≡◌, ℕ, suc, ◌*◌, ◌+◌, ◌≤◌, ◌<◌, length, get_or};
ghost use Rattle.lists.specs.Asks.{Asks₂, Promises₂};
ghost use Rattle.protocol.specs.Figures.{most_facts};
ghost use Rattle.steps.specs.Nodes.{most_nodes};
ghost use Rattle.steps.specs.Causes.Good.{RightNodes};
ghost use Rattle.facts.specs.Writing.{fact_room};
ghost use Rattle.facts.specs.Calls.{Room};
ghost use Rattle.graph.specs.Graph.{most_edges, place_of, edge_of};
ghost use Rattle.graph.specs.Table.{edge_fields, FieldsFor};
ghost use Rattle.graph.specs.Uses.{count_table};
ghost use Rattle.writer.specs.Free.{entry_place};
ghost use Rattle.writer.specs.Sources.{EdgePut, Feeding, AtPremise, PremiseFed, NodeFed, AllFed};

use crate::free;
use facts::nodes::FactId;
use facts::{counts, marks};
use graph::edges;
use protocol::figures;

// A premise: its node and its number there, both from 0.
#[derive(Drop)]
pub struct Premise {
    pub node: usize,
    pub number: usize,
}

// A number from 0 as files count, from 1. By hand, since no From narrows a number that is proved to fit.
fn from_one(i: usize) -> u32
    requires { i < count_table }
    ensures { result ≡ suc i }
{
    (i + 1) as u32
}

// Edge e, from 0, goes from the conclusion of an entry into a premise.
fn put_edge(edges: &mut [u32], e: usize, entry: usize, target: Premise)
    requires { (edge_fields * e + edge_fields ≤ length edges.old) × (e < most_edges) × (entry < count_table) × (target.node < most_nodes) × (target.number < most_facts) }
    ensures { EdgePut edges.old edges.new e (edge_of (entry_place entry) (place_of (suc target.node) (suc target.number))) }
{
    let from = edges::FIELDS * e + edges::SOURCE;
    let to = edges::FIELDS * e + edges::TARGET;
    edges[from] = from_one(entry / figures::MOST_FACTS);
    edges[from + 1] = from_one(entry % figures::MOST_FACTS);
    edges[to] = from_one(target.node);
    edges[to + 1] = from_one(target.number);
}

// Edge e goes into a premise, if it has a source.
fn feed_premise(
    work: &mut [u8],
    p: &[u8],
    s: &[u8],
    nodes: &[usize],
    target: Premise,
    free: &mut [u32],
    edges: &mut [u32],
    e: usize,
) -> bool
    requires { Asks₂ (AtPremise p.now s.now nodes.now free.old edges.old target.node target.number e) × Room work.old fact_room }
    ensures { Promises₂ (AtPremise p.now s.now nodes.now free.old edges.old target.node target.number e) (PremiseFed p.now s.now nodes.now free.new edges.new target.node target.number e result) }
{
    let x = FactId {
        node: target.node,
        list: figures::PREMISES,
        number: target.number,
    };
    let kept = marks::keep_fact(work, p, s, nodes, x);
    match free::find_source(work, p, s, nodes, free, x, kept) {
        Some(v) => {
            free::take_source(p, nodes, x, free, v);
            put_edge(edges, e, v, target);
            true
        }
        None => false,
    }
}

// The premises of node k, in order; edges are entered from e on. How many edges there are then, if each premise has a source.
fn feed_node(
    work: &mut [u8],
    p: &[u8],
    s: &[u8],
    nodes: &[usize],
    k: usize,
    free: &mut [u32],
    edges: &mut [u32],
    e: usize,
) -> Option<usize>
    requires { Asks₂ (Feeding p.now s.now nodes.now free.old edges.old k 0 e) × Room work.old fact_room }
    ensures { Promises₂ (Feeding p.now s.now nodes.now free.old edges.old k 0 e) (NodeFed p.now s.now nodes.now free.new edges.new k result) }
{
    let count = counts::fact_count(p, nodes, k, figures::PREMISES);
    for i in 0..count {
        let target = Premise { node: k, number: i };
        if !feed_premise(work, p, s, nodes, target, free, edges, e + i) {
            return None;
        }
    }
    Some(e + count)
}

// All nodes, in order: how many edges there are. Or the first node, from 1, with a premise that has no source. The table of free conclusions
// is empty at first.
fn choose_with(
    work: &mut [u8],
    p: &[u8],
    s: &[u8],
    nodes: &[usize],
    n: usize,
    edges: &mut [u32],
    free: &mut [u32],
) -> Result<usize, usize>
    requires { Asks₂ (RightNodes p.now s.now nodes.now n) × Room work.old fact_room × FieldsFor edges.old (most_facts * n) × (most_facts * n ≤ length free.old) × ((i : ℕ) → get_or free.old i 0 ≡ 0) }
    ensures { Promises₂ (RightNodes p.now s.now nodes.now n) (AllFed edges.new result) }
{
    let mut e: usize = 0;
    for k in 0..n {
        let Some(m) = feed_node(work, p, s, nodes, k, free, edges, e) else {
            return Err(k + 1);
        };
        free::enter_conclusions(work, p, s, nodes, k, free);
        e = m;
    }
    Ok(e)
}

// The same, with a table for few nodes or for any number.
pub fn choose_sources(
    work: &mut [u8],
    p: &[u8],
    s: &[u8],
    nodes: &[usize],
    n: usize,
    edges: &mut [u32],
) -> Result<usize, usize>
    requires { Asks₂ (RightNodes p.now s.now nodes.now n) × Room work.old fact_room × FieldsFor edges.old (most_facts * n) }
    ensures { Promises₂ (RightNodes p.now s.now nodes.now n) (AllFed edges.new result) }
{
    if n <= steps::nodes::FEW_NODES {
        let mut few = [0u32; free::FEW_ENTRIES];
        return choose_with(work, p, s, nodes, n, edges, &mut few);
    }
    let mut free = [0u32; free::ENTRIES];
    choose_with(work, p, s, nodes, n, edges, &mut free)
}
