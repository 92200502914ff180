// The symbol of a node's fact, how many arguments it has, whether it is linear.
ghost use Rattle.std.specs.Prelude.{◌≡◌, List, ℕ, length};
ghost use Rattle.lists.specs.Asks.{Asks₃, Promises₃};
ghost use Rattle.protocol.specs.Protocol.{Protocol};
ghost use Rattle.steps.specs.Nodes.{Node};
ghost use Rattle.steps.specs.Facts.{is_linear};
ghost use Rattle.facts.specs.Calls.{ListedFact, fact_at};

use crate::nodes;
use crate::nodes::FactId;
use prepared::{finding, sections};

// A linear symbol's entry in the prepared protocol.
const LINEAR: u8 = 1;

// The symbol.
pub fn fact_symbol(p: &[u8], nodes: &[usize], x: FactId) -> usize
    requires { Asks₃ (ListedFact p.now nodes.now x) }
    ensures { Promises₃ (ListedFact p.now nodes.now x) (λ (s : List ℕ) (P : Protocol) (m : Node). result ≡ (fact_at P x.list x.number m).symbol) }
{
    let place = nodes::fact_place(p, nodes, x);
    finding::symbol_of(p, place)
}

// How many arguments it has: the arity of its symbol.
pub fn argument_count(p: &[u8], nodes: &[usize], x: FactId) -> usize
    requires { Asks₃ (ListedFact p.now nodes.now x) }
    ensures { Promises₃ (ListedFact p.now nodes.now x) (λ (s : List ℕ) (P : Protocol) (m : Node). result ≡ length (fact_at P x.list x.number m).terms) }
{
    let y = fact_symbol(p, nodes, x);
    finding::arity_of(p, y)
}

// Whether it is linear.
pub fn is_linear(p: &[u8], nodes: &[usize], x: FactId) -> bool
    requires { Asks₃ (ListedFact p.now nodes.now x) }
    ensures { Promises₃ (ListedFact p.now nodes.now x) (λ (s : List ℕ) (P : Protocol) (m : Node). result ≡ is_linear P (fact_at P x.list x.number m)) }
{
    let y = fact_symbol(p, nodes, x);
    p[sections::LINEARS + y] == LINEAR
}
