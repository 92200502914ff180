// The names that nodes of rule 0 make (9).
ghost use Rattle.std.specs.Prelude.{◌≡◌, List, ◌≤◌};
ghost use Rattle.protocol.specs.Protocol.{Protocol};
ghost use Rattle.lists.specs.Asks.{Asks₂, Promises₂};
ghost use Rattle.rewriting.specs.Writer.{first_name_twice};
ghost use Rattle.steps.specs.Nodes.{Node, most_nodes};
ghost use Rattle.steps.specs.Table.{NodeIn, NodesIn};
ghost use Rattle.steps.specs.Facts.{made_name};
ghost use Rattle.steps.specs.Runs.{rewrittens};
ghost use Rattle.steps.specs.Names.{MadeIs};
ghost use Rattle.steps.specs.Names.Code.{NumberIs};
ghost use Rattle.term.specs.Reader.{symbol_at};

use crate::nodes;
use crate::values::Name;
use prepared::sections;
use term::Fresh;

// "Rule 0 makes Fr(fresh)."
const MAKES_FRESH: usize = 0;

// The fresh name at a place.
fn fresh_at(file: &[u8], arities: &[u8], at: usize) -> Option<Fresh>
    ensures { NumberIs (symbol_at file.now arities.now at) result }
{
    match crate::values::name_at(file, arities, at) {
        Some(Name::FreshName(f)) => Some(f),
        Some(Name::PublicName(_)) => None,
        None => None,
    }
}

// The name that node j makes: "Rule 0 makes Fr(fresh)", and no other rule makes one.
pub fn made_at(p: &[u8], s: &[u8], nodes: &[usize], j: usize) -> Option<Fresh>
    requires { Asks₂ (NodeIn p.now s.now nodes.now j) }
    ensures { Promises₂ (NodeIn p.now s.now nodes.now j) (λ (P : Protocol) (x : Node). MadeIs (made_name x) result) }
{
    let row = nodes::ROW * j;
    if nodes[row] == MAKES_FRESH {
        return fresh_at(s, &p[..sections::ARITIES], nodes[row + nodes::FIRST_PLACE]);
    }
    None
}

// 9 with room for the names of N nodes: each name is looked for among those before it, then put behind them.
fn pass_in<const N: usize>(p: &[u8], s: &[u8], nodes: &[usize], n: usize) -> Option<usize>
    requires { Asks₂ (NodesIn p.now s.now nodes.now n) × (n ≤ N) × (N ≤ most_nodes) }
    ensures { Promises₂ (NodesIn p.now s.now nodes.now n) (λ (P : Protocol) (xs : List Node). result ≡ first_name_twice (rewrittens P xs)) }
{
    let mut names = [0u32; N];
    let mut made = 0;
    for j in 0..n {
        if let Some(name) = made_at(p, s, nodes, j) {
            if names[..made].contains(&name.0) {
                return Some(j + 1);
            }
            names[made] = name.0;
            made += 1;
        }
    }
    None
}

// 9: the least node, from 1, that makes a name that an earlier one makes.
pub fn name_pass(p: &[u8], s: &[u8], nodes: &[usize], n: usize) -> Option<usize>
    requires { Asks₂ (NodesIn p.now s.now nodes.now n) }
    ensures { Promises₂ (NodesIn p.now s.now nodes.now n) (λ (P : Protocol) (xs : List Node). result ≡ first_name_twice (rewrittens P xs)) }
{
    if n <= nodes::FEW_NODES {
        return pass_in::<{ nodes::FEW_NODES }>(p, s, nodes, n);
    }
    pass_in::<{ nodes::MOST_NODES }>(p, s, nodes, n)
}
