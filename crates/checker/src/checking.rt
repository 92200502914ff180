// The call check, where the work area is long enough.
ghost use Rattle.std.specs.Prelude.{◌≡◌, ℕ, ◌≤◌, length, Ok};
ghost use Rattle.lists.specs.Asks.{Asks, Promises, Asks₂, Promises₂, Asks₃, Promises₃};
ghost use Rattle.protocol.specs.Protocol.{Protocol};
ghost use Rattle.prepared.specs.Prepared.{Prepared};
ghost use Rattle.steps.specs.Table.{RowsOf};
ghost use Rattle.graph.specs.Table.{FieldsOf};
ghost use Rattle.graph.specs.Area.{Area};
ghost use Rattle.property.specs.Formula.{Formula};
ghost use Rattle.verdict.specs.Judged.{Posed};
ghost use Rattle.checker.specs.Answer.{work_need};
ghost use Rattle.checker.specs.Files.{protocol_limit};
ghost use Rattle.checker.specs.Check.{graph_limit, ruled, graph_under, under_protocol, files_ruling};
ghost use Rattle.checker.specs.Check.Contracts.{Under, Told, Long, Inside};

use crate::{Counts, Refusal, Ruling, refuse};
use graph::area;
use graph::edges::{FEW_FIELDS, TABLE as FIELDS};
use prepared::sections;
use rules::fit::Unfit;
use steps::nodes::{FEW_ROWS, TABLE as ROWS};

// The ruling on the n nodes of a dependency graph of m edges.
fn judge_graph(
    p: &[u8],
    property: &[u8],
    graph: &[u8],
    nodes: &[usize],
    n: usize,
    m: usize,
    work: &mut [u8],
) -> Ruling
    requires { Asks₃ (Posed p.now property.now graph.now nodes.now n) × Area work.old }
    ensures { Promises₃ (Posed p.now property.now graph.now nodes.now n) (Told n m (Ok result)) }
{
    let facts = &mut work[area::FACTS..area::FACTS_END];
    let verdict = verdict::judge_nodes(p, property, graph, nodes, n, facts);
    let counts = Counts {
        nodes: n,
        active: verdict.active,
        edges: m,
    };
    if verdict.truth {
        return Ruling::Run(counts);
    }
    Ruling::Attack(counts)
}

// The graph, 3 and 6 to 13, under a property that passes, with tables that are long enough for it.
fn check_with(
    p: &[u8],
    property: &[u8],
    graph: &[u8],
    nodes: &mut [usize],
    edges: &mut [u32],
    work: &mut [u8],
) -> Result<Ruling, Refusal>
    requires { Asks₂ (Under p.now property.now) × (length graph.now ≤ graph_limit) × RowsOf graph.now 0 nodes.old × FieldsOf graph.now edges.old × Area work.old }
    ensures { Promises₂ (Under p.now property.now) (λ (P : Protocol) (f : Formula). ruled result ≡ graph_under P f graph.now) }
{
    match graph::ruling::rule_graph(p, graph, nodes, edges, work) {
        Ok((n, m)) => Ok(judge_graph(p, property, graph, nodes, n, m, work)),
        Err(r) => Err(refuse(r.number, r.item)),
    }
}

// The same with tables of these lengths.
fn check_within<const N: usize, const M: usize>(
    p: &[u8],
    property: &[u8],
    graph: &[u8],
    work: &mut [u8],
) -> Result<Ruling, Refusal>
    requires { Asks₂ (Under p.now property.now) × (length graph.now ≤ graph_limit) × Long graph.now N M × Area work.old }
    ensures { Promises₂ (Under p.now property.now) (λ (P : Protocol) (f : Formula). ruled result ≡ graph_under P f graph.now) }
{
    let mut nodes = [0usize; N];
    let mut edges = [0u32; M];
    check_with(p, property, graph, &mut nodes, &mut edges, work)
}

// The graph, under a property that passes.
fn check_graph(p: &[u8], property: &[u8], graph: &[u8], work: &mut [u8]) -> Result<Ruling, Refusal>
    requires { Asks₂ (Under p.now property.now) × (length graph.now ≤ graph_limit) × Area work.old }
    ensures { Promises₂ (Under p.now property.now) (λ (P : Protocol) (f : Formula). ruled result ≡ graph_under P f graph.now) }
{
    if graph.len() <= FEW_FIELDS && steps::nodes::few_nodes(graph) {
        return check_within::<FEW_ROWS, FEW_FIELDS>(p, property, graph, work);
    }
    check_within::<ROWS, FIELDS>(p, property, graph, work)
}

// The property, 3 and 5, under a prepared protocol, then the graph.
fn check_property(
    p: &[u8],
    property: &[u8],
    graph: &[u8],
    work: &mut [u8],
) -> Result<Ruling, Refusal>
    requires { Asks (Prepared p.now) × (length graph.now ≤ graph_limit) × Area work.old }
    ensures { Promises (Prepared p.now) (λ (P : Protocol). ruled result ≡ under_protocol P property.now graph.now) }
{
    match property::ruling::rule_property(p, property) {
        Ok(()) => check_graph(p, property, graph, work),
        Err(r) => Err(refuse(r.number, r.item)),
    }
}

// The protocol, 3 and 4, then the property and the graph.
fn check_protocol(
    protocol: &[u8],
    property: &[u8],
    graph: &[u8],
    work: &mut [u8],
) -> Result<Ruling, Refusal>
    requires { (length protocol.now ≤ protocol_limit) × (length graph.now ≤ graph_limit) × Area work.old }
    ensures { ruled result ≡ files_ruling protocol.now property.now graph.now }
{
    let mut p = [0u8; sections::PREPARED];
    match prepared::list_places::prepare(protocol, &mut p) {
        Ok(_) => check_property(&p, property, graph, work),
        Err(Unfit::Broken(k)) => Err(refuse(rewriting::CONDITION_BROKEN, k)),
        Err(Unfit::Fault) => Err(refuse(rewriting::LAYOUT, rewriting::PROTOCOL_ITEM)),
    }
}

// "2 for all files in order", then the files.
pub fn check_files(
    protocol: &[u8],
    property: &[u8],
    graph: &[u8],
    work: &mut [u8],
) -> Result<Ruling, Refusal>
    requires { Area work.old }
    ensures { Promises (λ (work : ℕ). work_need ≤ work) (Inside protocol.now property.now graph.now result) }
{
    if crate::PROTOCOL_LIMIT < protocol.len() {
        return Err(refuse(rewriting::FILE_LONG, rewriting::PROTOCOL_ITEM));
    }
    if crate::PROPERTY_LIMIT < property.len() {
        return Err(refuse(rewriting::FILE_LONG, rewriting::PROPERTY_ITEM));
    }
    if crate::GRAPH_LIMIT < graph.len() {
        return Err(refuse(rewriting::FILE_LONG, rewriting::GRAPH_ITEM));
    }
    check_protocol(protocol, property, graph, work)
}
