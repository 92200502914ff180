// How many facts a list of a node has.
ghost use Rattle.std.specs.Prelude.{◌≡◌, List, ◌<◌, ℕ, length};
ghost use Rattle.protocol.specs.Figures.{list_count};
ghost use Rattle.lists.specs.Asks.{Asks₃, Promises₃};
ghost use Rattle.protocol.specs.Protocol.{Protocol};
ghost use Rattle.steps.specs.Nodes.{Node};
ghost use Rattle.steps.specs.Facts.{facts_of};
ghost use Rattle.facts.specs.Rules.{list_start};
ghost use Rattle.facts.specs.Calls.{NodeOf};

use prepared::list_places;

// The place of a list of node j: 0 premises, 1 actions, 2 conclusions.
pub fn list_start(p: &[u8], nodes: &[usize], j: usize, list: usize) -> usize
    requires { Asks₃ (NodeOf p.now nodes.now j) × (list < list_count) }
    ensures { result ≡ list_start p.now nodes.now j list }
{
    let number = nodes[steps::nodes::ROW * j];
    list_places::list_place(p, number, list)
}

// How many facts that list has.
pub fn fact_count(p: &[u8], nodes: &[usize], j: usize, list: usize) -> usize
    requires { Asks₃ (NodeOf p.now nodes.now j) × (list < list_count) }
    ensures { Promises₃ (NodeOf p.now nodes.now j) (λ (s : List ℕ) (P : Protocol) (x : Node). result ≡ length (facts_of P list x)) }
{
    let start = list_start(p, nodes, j, list);
    protocol::places::count_of(p, start)
}
