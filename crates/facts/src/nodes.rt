// The bytes of a node's fact: of canonical forms, or as it stands.
ghost use Rattle.std.specs.Prelude.{◌≡◌};
ghost use Rattle.lists.specs.Asks.{Asks₂, Promises₂, Asks₃};
ghost use Rattle.protocol.specs.Protocol.{Protocol};
ghost use Rattle.steps.specs.Nodes.{Node};
ghost use Rattle.facts.specs.Rules.{fact_start};
ghost use Rattle.facts.specs.Calls.{Room, ListedFact, FactIn, AtPlace, FactWritten, fact_at};

use crate::writing;
use crate::writing::Wanted;
use prepared::{finding, list_places};

// A fact of a node: the node's number, from 0, the list of its rule (0 premises, 1 actions, 2 conclusions), the number in that list, from 0.
#[derive(Clone, Copy, Default)]
pub struct FactId {
    pub node: usize,
    pub list: usize,
    pub number: usize,
}

// A fact of a node and its place in the prepared protocol.
#[derive(Clone, Copy)]
pub struct PlacedFact {
    pub id: FactId,
    pub place: usize,
}

// The fact's symbol, and the place behind the bytes that were written.
#[derive(Clone, Copy)]
pub struct WrittenFact {
    pub symbol: usize,
    pub end: usize,
}

// The place of a fact of a node's rule.
pub fn fact_place(p: &[u8], nodes: &[usize], x: FactId) -> usize
    requires { Asks₃ (ListedFact p.now nodes.now x) }
    ensures { result ≡ fact_start p.now nodes.now x.node x.list x.number }
{
    let number = nodes[steps::nodes::ROW * x.node];
    list_places::fact_place(p, number, x.list, x.number)
}

// The fact of a node at its place: the bytes that are wanted go into the output from o on.
pub fn write_fact(
    out: &mut [u8],
    o: usize,
    p: &[u8],
    s: &[u8],
    nodes: &[usize],
    x: PlacedFact,
    wanted: Wanted,
) -> WrittenFact
    requires { AtPlace p.now nodes.now x × Asks₂ (FactIn p.now s.now nodes.now x.id wanted) × Room out.old o }
    ensures { Promises₂ (FactIn p.now s.now nodes.now x.id wanted) (λ (P : Protocol) (m : Node). FactWritten wanted out.old o out.new result (fact_at P x.id.list x.id.number m)) }
{
    let symbol = finding::symbol_of(p, x.place);
    let first = steps::nodes::ROW * x.id.node + steps::nodes::FIRST_PLACE;
    let starts = &nodes[first..first + steps::nodes::PLACES];
    let end = writing::wanted_into(out, o, p, x.place, wanted, s, starts);
    WrittenFact { symbol, end }
}

// The same, the place to be found.
pub fn node_fact(
    out: &mut [u8],
    o: usize,
    p: &[u8],
    s: &[u8],
    nodes: &[usize],
    x: FactId,
    wanted: Wanted,
) -> WrittenFact
    requires { Asks₂ (FactIn p.now s.now nodes.now x wanted) × Room out.old o }
    ensures { Promises₂ (FactIn p.now s.now nodes.now x wanted) (λ (P : Protocol) (m : Node). FactWritten wanted out.old o out.new result (fact_at P x.list x.number m)) }
{
    let place = fact_place(p, nodes, x);
    write_fact(out, o, p, s, nodes, PlacedFact { id: x, place }, wanted)
}
