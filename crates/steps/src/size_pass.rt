// The least node that has a filled-in term of more than 256 symbols (8).
ghost use Rattle.std.specs.Prelude.{◌≡◌, List, ℕ};
ghost use Rattle.protocol.specs.Protocol.{Protocol};
ghost use Rattle.lists.specs.Asks.{Asks₂, Promises₂};
ghost use Rattle.lists.specs.Lists.{first_bad};
ghost use Rattle.steps.specs.Nodes.{Node};
ghost use Rattle.steps.specs.Table.{NodeIn, NodesIn};
ghost use Rattle.steps.specs.Values.Tests.{node_terms_ok};

use crate::{nodes, sizes};
use prepared::finding;

// Whether the terms of node j's rule are small enough with its values filled in, whose sizes its row has.
fn node_terms(p: &[u8], s: &[u8], nodes: &[usize], j: usize) -> bool
    requires { Asks₂ (NodeIn p.now s.now nodes.now j) }
    ensures { Promises₂ (NodeIn p.now s.now nodes.now j) (λ (P : Protocol) (x : Node). result ≡ node_terms_ok P x) }
{
    let number = nodes[nodes::ROW * j];
    let k = protocol::places::variables_of(p, finding::place_of(p, number));
    let first = nodes::ROW * j + nodes::FIRST_SIZE;
    sizes::rule_small(p, number, &nodes[first..first + k])
}

// 8: the least node, from 1, that has a filled-in term of more than 256 symbols.
pub fn size_pass(p: &[u8], s: &[u8], nodes: &[usize], n: usize) -> Option<usize>
    requires { Asks₂ (NodesIn p.now s.now nodes.now n) }
    ensures { Promises₂ (NodesIn p.now s.now nodes.now n) (λ (P : Protocol) (xs : List Node). result ≡ first_bad (λ (k : ℕ) (x : Node). node_terms_ok P x) 1 xs) }
{
    // A loop of its own, as in values and names: one function over closures would ask each of them that its node stands in the table.
    for j in 0..n {
        if !node_terms(p, s, nodes, j) {
            return Some(j + 1);
        }
    }
    None
}
