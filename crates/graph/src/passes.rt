// 12 and 13 over all nodes, by the counts of ends. They are alike in form; the tests and the laws that they promise differ, so each has its functions.
ghost use Rattle.std.specs.Prelude.{◌≡◌, not, ◌||◌, List, ℕ, ◌*◌, ◌≤◌, leb, length};
ghost use Rattle.lists.specs.Asks.{Asks₃, Promises₃};
ghost use Rattle.lists.specs.Lists.{first_bad};
ghost use Rattle.rewriting.specs.Checker.{premises_ok, conclusions_ok};
ghost use Rattle.protocol.specs.Figures.{most_facts};
ghost use Rattle.protocol.specs.Protocol.{Protocol};
ghost use Rattle.steps.specs.Nodes.{Node};
ghost use Rattle.steps.specs.Facts.{is_linear};
ghost use Rattle.steps.specs.Runs.{protocol_facts, rewrittens};
ghost use Rattle.facts.specs.Calls.{ListedFact, fact_at};
ghost use Rattle.graph.specs.Graph.{Graph};
ghost use Rattle.graph.specs.Joins.{EndedOf};
ghost use Rattle.graph.specs.Passes.{CountsAsked, PremisesTold, ConclusionsTold};

use crate::{edges, scan, uses};
use facts::nodes::FactId;
use facts::{counts, symbols};
use protocol::figures;

// "exactly one edge"
const ONE: u8 = 1;

// Whether just one edge goes into each premise of node j, from 0.
fn premises_ok(p: &[u8], nodes: &[usize], j: usize, uses: &[u8]) -> bool
    requires { CountsAsked p.now nodes.now uses.now j }
    ensures { PremisesTold p.now nodes.now uses.now j result }
{
    let count = counts::fact_count(p, nodes, j, figures::PREMISES);
    let first = figures::MOST_FACTS * j;
    uses[first..first + count].iter().all(|&c| c == ONE)
}

// Whether a conclusion that is so often the source of an edge is persistent, or used once at most.
fn one_out(p: &[u8], nodes: &[usize], x: FactId, count: u8) -> bool
    requires { Asks₃ (ListedFact p.now nodes.now x) }
    ensures { Promises₃ (ListedFact p.now nodes.now x) (λ (s : List ℕ) (P : Protocol) (m : Node). result ≡ (not (is_linear P (fact_at P x.list x.number m)) || leb count 1)) }
{
    if count <= ONE {
        return true;
    }
    if symbols::is_linear(p, nodes, x) {
        return false;
    }
    true
}

// Whether at most one edge goes out of each linear conclusion of node j, from 0.
fn conclusions_ok(p: &[u8], nodes: &[usize], j: usize, uses: &[u8]) -> bool
    requires { CountsAsked p.now nodes.now uses.now j }
    ensures { ConclusionsTold p.now nodes.now uses.now j result }
{
    let count = counts::fact_count(p, nodes, j, figures::CONCLUSIONS);
    let first = figures::MOST_FACTS * j;
    for i in 0..count {
        let x = FactId {
            node: j,
            list: figures::CONCLUSIONS,
            number: i,
        };
        if !one_out(p, nodes, x, uses[first + i]) {
            return false;
        }
    }
    true
}

// 12: the least node that has a premise without exactly one edge. The counts go into the lent part.
pub fn premise_pass(
    p: &[u8],
    nodes: &[usize],
    n: usize,
    edges: &[u32],
    m: usize,
    uses: &mut [u8],
) -> Option<usize>
    requires { Asks₃ (EndedOf p.now nodes.now n edges.now m) × (most_facts * n ≤ length uses.old) }
    ensures { Promises₃ (EndedOf p.now nodes.now n edges.now m) (λ (s : List ℕ) (P : Protocol) (g : Graph). result ≡ first_bad (premises_ok (protocol_facts P) g.edges) 1 (rewrittens P g.nodes)) }
{
    uses::count_ends(edges, m, edges::TARGET, uses);
    scan::first_failing(
        n,
        |j|
            requires { CountsAsked p.now nodes.now uses.now j }
            ensures { PremisesTold p.entry.now nodes.entry.now uses.entry.now j result }
        { premises_ok(p, nodes, j, uses) },
    )
}

// 13: the least node that has a linear conclusion used twice.
pub fn conclusion_pass(
    p: &[u8],
    nodes: &[usize],
    n: usize,
    edges: &[u32],
    m: usize,
    uses: &mut [u8],
) -> Option<usize>
    requires { Asks₃ (EndedOf p.now nodes.now n edges.now m) × (most_facts * n ≤ length uses.old) }
    ensures { Promises₃ (EndedOf p.now nodes.now n edges.now m) (λ (s : List ℕ) (P : Protocol) (g : Graph). result ≡ first_bad (conclusions_ok (protocol_facts P) g.edges) 1 (rewrittens P g.nodes)) }
{
    uses::count_ends(edges, m, edges::SOURCE, uses);
    scan::first_failing(
        n,
        |j|
            requires { CountsAsked p.now nodes.now uses.now j }
            ensures { ConclusionsTold p.entry.now nodes.entry.now uses.entry.now j result }
        { conclusions_ok(p, nodes, j, uses) },
    )
}
