// The verdict on a property over the trace of right nodes: its truth, and how many nodes have an action.
#![tactic(auto)]

ghost use Rattle.lists.specs.Asks.{Asks₃, Promises₃};
ghost use Rattle.facts.specs.Writing.{fact_room};
ghost use Rattle.facts.specs.Calls.{Room};
ghost use Rattle.verdict.specs.Judged.{Posed, Long, Tabled, Judged};

use prepared::sections;
use trace::tables::{CLASSES, FEW_CLASSES, FEW_STARTS, FEW_SYMBOLS, STARTS, SYMBOLS};
use trace::{active, tables};

#[derive(Clone, Copy)]
pub struct Verdict {
    pub truth: bool,
    pub active: usize,
}

// The verdict by the tables of n nodes.
fn verdict_of(
    p: &[u8],
    property: &[u8],
    n: usize,
    starts: &[u32],
    symbols: &[u32],
    classes: &[u32],
) -> Verdict
    requires { Asks₃ (Tabled p.now property.now n starts.now symbols.now classes.now) }
    ensures { Promises₃ (Tabled p.now property.now n starts.now symbols.now classes.now) (Judged result) }
{
    let active = active::active_nodes(starts, n);
    let arities = &p[sections::ARITIES..sections::LINEARS];
    let truth = judge::judging::holds(
        property,
        arities,
        &starts[..n + 1],
        symbols,
        classes,
        trace::numbers::BASE,
    );
    Verdict { truth, active }
}

// The verdict with tables of these lengths.
fn judge_with<const STARTS: usize, const SYMBOLS: usize, const CLASSES: usize>(
    p: &[u8],
    property: &[u8],
    s: &[u8],
    nodes: &[usize],
    n: usize,
    work: &mut [u8],
) -> Verdict
    requires { Asks₃ (Posed p.now property.now s.now nodes.now n) × Room work.old fact_room × Long STARTS SYMBOLS CLASSES n }
    ensures { Promises₃ (Posed p.now property.now s.now nodes.now n) (Judged result) }
{
    let mut starts = [0u32; STARTS];
    let mut symbols = [0u32; SYMBOLS];
    let mut classes = [0u32; CLASSES];
    tables::make_tables(
        work,
        p,
        s,
        nodes,
        n,
        &mut starts,
        &mut symbols,
        &mut classes,
    );
    verdict_of(p, property, n, &starts, &symbols, &classes)
}

// The verdict on a property file that passes, over the n nodes of a table. Canonical bytes go into the work slice.
pub fn judge_nodes(
    p: &[u8],
    property: &[u8],
    s: &[u8],
    nodes: &[usize],
    n: usize,
    work: &mut [u8],
) -> Verdict
    requires { Asks₃ (Posed p.now property.now s.now nodes.now n) × Room work.old fact_room }
    ensures { Promises₃ (Posed p.now property.now s.now nodes.now n) (Judged result) }
{
    if n <= steps::nodes::FEW_NODES {
        return judge_with::<FEW_STARTS, FEW_SYMBOLS, FEW_CLASSES>(p, property, s, nodes, n, work);
    }
    judge_with::<STARTS, SYMBOLS, CLASSES>(p, property, s, nodes, n, work)
}
