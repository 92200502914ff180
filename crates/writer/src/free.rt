// The free conclusions of the nodes so far, an entry each: 0 where none is free, else the fact's mark and one.
ghost use Rattle.std.specs.Prelude.{◌≡◌, List, ℕ, ◌≤◌, ◌<◌, length, set};
ghost use Rattle.lists.specs.Asks.{Asks₂, Promises₂, Asks₃, Promises₃};
ghost use Rattle.lists.specs.Choice.{pick};
ghost use Rattle.protocol.specs.Protocol.{Protocol};
ghost use Rattle.steps.specs.Nodes.{Node};
ghost use Rattle.steps.specs.Facts.{is_linear};
ghost use Rattle.facts.specs.Writing.{fact_room};
ghost use Rattle.facts.specs.Calls.{Room, ListedFact, fact_at};
ghost use Rattle.writer.specs.Free.{entry_id};
ghost use Rattle.writer.specs.Search.{NextMarked, Searching, Found, AtNode, Entered};

use facts::marks::KeptFact;
use facts::nodes::FactId;
use facts::{compare, counts, marks, symbols};
use protocol::figures;

// One entry for each conclusion that a node can have: of all nodes, or of few.
pub const ENTRIES: usize = figures::MOST_FACTS * steps::nodes::MOST_NODES;

pub const FEW_ENTRIES: usize = figures::MOST_FACTS * steps::nodes::FEW_NODES;

// An entry without a free conclusion.
const NOT_FREE: u32 = 0;

// The conclusion of an entry.
fn conclusion_of(entry: usize) -> FactId
    ensures { result ≡ entry_id entry }
{
    FactId {
        node: entry / figures::MOST_FACTS,
        list: figures::CONCLUSIONS,
        number: entry % figures::MOST_FACTS,
    }
}

// The next entry of a mark, from a place on; or none before the end.
fn next_marked(free: &[u32], wanted: u32, from: usize, end: usize) -> Option<usize>
    requires { (from ≤ end) × (end ≤ length free.now) }
    ensures { NextMarked free.now wanted from end result }
{
    for v in from..end {
        if free[v] == wanted {
            return Some(v);
        }
    }
    None
}

// The entry of the first free conclusion of an earlier node that is the same fact as x, which is kept in the work slice. Facts are compared
// only where their marks agree.
pub fn find_source(
    work: &mut [u8],
    p: &[u8],
    s: &[u8],
    nodes: &[usize],
    free: &[u32],
    x: FactId,
    kept: KeptFact,
) -> Option<usize>
    requires { Asks₂ (Searching p.now s.now nodes.now free.now x work.old kept) × Room work.old fact_room }
    ensures { Promises₂ (Searching p.now s.now nodes.now free.now x work.old kept) (Found free.now x result) }
{
    let end = figures::MOST_FACTS * x.node;
    let wanted = kept.mark + 1;
    // A search before the loop and one at its end: with a single one in its head both loops are compiled as one, which is slower.
    let mut next = next_marked(free, wanted, 0, end);
    while let Some(v) = next {
        if compare::same_as_kept(work, p, s, nodes, kept, conclusion_of(v)) {
            return Some(v);
        }
        next = next_marked(free, wanted, v + 1, end);
    }
    None
}

// A linear conclusion that is used is free no more.
pub fn take_source(p: &[u8], nodes: &[usize], x: FactId, free: &mut [u32], v: usize)
    requires { Asks₃ (ListedFact p.now nodes.now x) × (v < length free.old) }
    ensures { Promises₃ (ListedFact p.now nodes.now x) (λ (s : List ℕ) (P : Protocol) (m : Node). free.new ≡ pick (is_linear P (fact_at P x.list x.number m)) (set free.old v 0) free.old) }
{
    if symbols::is_linear(p, nodes, x) {
        free[v] = NOT_FREE;
    }
}

// The conclusions of node k are free.
pub fn enter_conclusions(
    work: &mut [u8],
    p: &[u8],
    s: &[u8],
    nodes: &[usize],
    k: usize,
    free: &mut [u32],
)
    requires { Asks₂ (AtNode p.now s.now nodes.now k free.old) × Room work.old fact_room }
    ensures { Promises₂ (AtNode p.now s.now nodes.now k free.old) (Entered k free.old free.new) }
{
    let count = counts::fact_count(p, nodes, k, figures::CONCLUSIONS);
    let first = figures::MOST_FACTS * k;
    for i in 0..count {
        let x = FactId {
            node: k,
            list: figures::CONCLUSIONS,
            number: i,
        };
        free[first + i] = marks::fact_mark(work, p, s, nodes, x) + 1;
    }
}
