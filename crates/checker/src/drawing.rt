// The call draw, where the work area is long enough.
ghost use Rattle.std.specs.Prelude.{List, ℕ, ◌*◌, ◌≤◌, length};
ghost use Rattle.lists.specs.Asks.{Asks, Promises, Asks₂, Promises₂};
ghost use Rattle.protocol.specs.Protocol.{Protocol};
ghost use Rattle.prepared.specs.Prepared.{Prepared};
ghost use Rattle.protocol.specs.Figures.{most_facts};
ghost use Rattle.steps.specs.Nodes.{Node};
ghost use Rattle.steps.specs.Table.{RowsOf};
ghost use Rattle.steps.specs.WellFormed.{steps_limit};
ghost use Rattle.facts.specs.Writing.{fact_room};
ghost use Rattle.facts.specs.Calls.{Room};
ghost use Rattle.graph.specs.Table.{FieldsFor, EdgesIn};
ghost use Rattle.checker.specs.Answer.{work_need};
ghost use Rattle.checker.specs.Draw.{steps_under};
ghost use Rattle.checker.specs.Draw.Contracts.{Judges, Drawable, Edged, Inside};

use crate::{Refusal, refuse};
use graph::edges;
use prepared::sections;
use rules::fit::Unfit;
use steps::nodes;

// "Steps (32,768 bytes)"
const STEPS_LIMIT: usize = 32768;

// 15, or the graph of the steps and m edges.
fn write_drawn(steps: &[u8], edges: &[u32], m: usize, output: &mut [u8]) -> Result<u32, Refusal>
    requires { Asks (EdgesIn edges.now m) × (length steps.now ≤ steps_limit) }
    ensures { Promises (EdgesIn edges.now m) (Edged steps.now output.old output.new result) }
{
    let need = steps.len() + writer::edges::edges_len(edges, m);
    if output.len() < need {
        return Err(refuse(rewriting::OUTPUT_SHORT, need));
    }
    writer::edges::write_graph(output, steps, edges, m);
    Ok(need as u32)
}

// 14, or the edges of n nodes that are right, and 15, with a table that is long enough for the edges.
fn draw_edges(
    p: &[u8],
    steps: &[u8],
    nodes: &[usize],
    n: usize,
    edges: &mut [u32],
    output: &mut [u8],
    work: &mut [u8],
) -> Result<u32, Refusal>
    requires { Asks₂ (Drawable p.now steps.now nodes.now n) × (length steps.now ≤ steps_limit) × FieldsFor edges.old (most_facts * n) × Room work.old fact_room }
    ensures { Promises₂ (Drawable p.now steps.now nodes.now n) (λ (P : Protocol) (xs : List Node). Judges (steps_under P steps.now) output.old output.new result) }
{
    match writer::sources::choose_sources(work, p, steps, nodes, n, edges) {
        Ok(m) => write_drawn(steps, edges, m, output),
        Err(k) => Err(refuse(rewriting::PREMISES_MISSING, k)),
    }
}

// The same, with a table for few nodes or for any number.
fn draw_nodes(
    p: &[u8],
    steps: &[u8],
    nodes: &[usize],
    n: usize,
    output: &mut [u8],
    work: &mut [u8],
) -> Result<u32, Refusal>
    requires { Asks₂ (Drawable p.now steps.now nodes.now n) × (length steps.now ≤ steps_limit) × Room work.old fact_room }
    ensures { Promises₂ (Drawable p.now steps.now nodes.now n) (λ (P : Protocol) (xs : List Node). Judges (steps_under P steps.now) output.old output.new result) }
{
    if n <= nodes::FEW_NODES {
        let mut few = [0u32; edges::FEW_FIELDS];
        return draw_edges(p, steps, nodes, n, &mut few, output, work);
    }
    let mut edges = [0u32; edges::TABLE];
    draw_edges(p, steps, nodes, n, &mut edges, output, work)
}

// The steps, 3 and 6 to 9, 14 and 15, under a prepared protocol, with a table that is long enough for their nodes.
fn draw_with(
    p: &[u8],
    steps: &[u8],
    nodes: &mut [usize],
    output: &mut [u8],
    work: &mut [u8],
) -> Result<u32, Refusal>
    requires { Asks (Prepared p.now) × (length steps.now ≤ steps_limit) × RowsOf steps.now 0 nodes.old × Room work.old fact_room }
    ensures { Promises (Prepared p.now) (λ (P : Protocol). Judges (steps_under P steps.now) output.old output.new result) }
{
    match steps::ruling::rule_steps(p, steps, nodes) {
        Ok(n) => draw_nodes(p, steps, nodes, n, output, work),
        Err(r) => Err(refuse(r.number, r.item)),
    }
}

// The same, with a table for few nodes or for any number.
fn draw_steps(p: &[u8], steps: &[u8], output: &mut [u8], work: &mut [u8]) -> Result<u32, Refusal>
    requires { Asks (Prepared p.now) × (length steps.now ≤ steps_limit) × Room work.old fact_room }
    ensures { Promises (Prepared p.now) (λ (P : Protocol). Judges (steps_under P steps.now) output.old output.new result) }
{
    if nodes::few_nodes(steps) {
        let mut few = [0usize; nodes::FEW_ROWS];
        return draw_with(p, steps, &mut few, output, work);
    }
    let mut nodes = [0usize; nodes::TABLE];
    draw_with(p, steps, &mut nodes, output, work)
}

// "1 to 4": the sizes of the files, the protocol, then the steps.
pub fn draw_files(
    protocol: &[u8],
    steps: &[u8],
    output: &mut [u8],
    work: &mut [u8],
) -> Result<u32, Refusal>
    requires { Room work.old fact_room }
    ensures { Promises (λ (work : ℕ). work_need ≤ work) (Inside protocol.now steps.now output.old output.new result) }
{
    if crate::PROTOCOL_LIMIT < protocol.len() {
        return Err(refuse(rewriting::FILE_LONG, rewriting::PROTOCOL_ITEM));
    }
    if STEPS_LIMIT < steps.len() {
        return Err(refuse(rewriting::FILE_LONG, rewriting::STEPS_ITEM));
    }
    let mut p = [0u8; sections::PREPARED];
    match prepared::list_places::prepare(protocol, &mut p) {
        Ok(_) => draw_steps(&p, steps, output, work),
        Err(Unfit::Broken(k)) => Err(refuse(rewriting::CONDITION_BROKEN, k)),
        Err(Unfit::Fault) => Err(refuse(rewriting::LAYOUT, rewriting::PROTOCOL_ITEM)),
    }
}
