// A mark for each fact: facts whose marks differ are not the same.
ghost use Rattle.std.specs.Prelude.{◌≡◌, ◌<◌};
ghost use Rattle.lists.specs.Asks.{Asks₂, Promises₂};
ghost use Rattle.protocol.specs.Protocol.{Protocol};
ghost use Rattle.steps.specs.Nodes.{Node};
ghost use Rattle.facts.specs.Calls.{Room, WholeFact, fact_at};
ghost use Rattle.facts.specs.Kept.{Keeps};
ghost use Rattle.facts.specs.Marks.{mark_limit, mark_from, mark_of};

use crate::nodes;
use crate::nodes::FactId;
use crate::writing::Wanted;

// A mark is a number below the limit, a prime below 2 to the 16th.
const BASE: u32 = 257;

pub const LIMIT: u32 = 65521;

// The mark of some bytes, from a number on.
pub fn mark_bytes(file: &[u8], from: u32) -> u32
    requires { from < mark_limit }
    ensures { result ≡ mark_from from file.now }
{
    let mut h = from;
    for b in file {
        h = (h * BASE + *b as u32) % LIMIT;
    }
    h
}

// A fact that is kept: its symbol and its mark, and the place behind its canonical bytes, which stand at the start of the output.
#[derive(Clone, Copy)]
pub struct KeptFact {
    pub symbol: usize,
    pub mark: u32,
    pub end: usize,
}

// A node's fact is written to the start of the output, with the mark of its symbol and canonical bytes.
pub fn keep_fact(out: &mut [u8], p: &[u8], s: &[u8], nodes: &[usize], x: FactId) -> KeptFact
    requires { Asks₂ (WholeFact p.now s.now nodes.now x) × Room out.old 0 }
    ensures { Promises₂ (WholeFact p.now s.now nodes.now x) (λ (P : Protocol) (m : Node). Keeps out.new result (fact_at P x.list x.number m)) }
{
    let a = nodes::node_fact(out, 0, p, s, nodes, x, Wanted::All);
    let mark = mark_bytes(&out[..a.end], a.symbol as u32);
    KeptFact {
        symbol: a.symbol,
        mark,
        end: a.end,
    }
}

// The mark alone.
pub fn fact_mark(out: &mut [u8], p: &[u8], s: &[u8], nodes: &[usize], x: FactId) -> u32
    requires { Asks₂ (WholeFact p.now s.now nodes.now x) × Room out.old 0 }
    ensures { Promises₂ (WholeFact p.now s.now nodes.now x) (λ (P : Protocol) (m : Node). result ≡ mark_of (fact_at P x.list x.number m)) }
{
    keep_fact(out, p, s, nodes, x).mark
}
