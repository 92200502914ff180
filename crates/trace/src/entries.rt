// The actions of nodes, an entry each: where those of each node begin, whose they are, their symbols.
ghost use Rattle.std.specs.Prelude.{◌≡◌, List, ℕ, ◌+◌, ◌≤◌, ◌<◌, length};
ghost use Rattle.lists.specs.Asks.{Asks₃, Promises₃};
ghost use Rattle.protocol.specs.Figures.{most_facts};
ghost use Rattle.protocol.specs.Protocol.{Protocol};
ghost use Rattle.steps.specs.Nodes.{Node};
ghost use Rattle.trace.specs.Tables.{actions_of};
ghost use Rattle.trace.specs.Entries.{Begun, NodeEntered, TableOf, AllEntered, EntriesOf, SymbolsTo, action_id};

use facts::nodes::FactId;
use facts::{counts, symbols};
use protocol::figures;

// The actions of a node, and those of all nodes.
const NODE_ACTIONS: usize = figures::MOST_FACTS;

pub const MOST_ACTIONS: usize = NODE_ACTIONS * steps::nodes::MOST_NODES;

// Those of few nodes.
pub const FEW_ACTIONS: usize = NODE_ACTIONS * steps::nodes::FEW_NODES;

// The action of an entry: a node and the number of one of its actions, in one number.
pub fn action_of(code: u32) -> FactId
    ensures { result ≡ action_id code }
{
    FactId {
        node: code as usize / NODE_ACTIONS,
        list: figures::ACTIONS,
        number: code as usize % NODE_ACTIONS,
    }
}

// The actions of node k go into the entries from a number on; the number behind them.
fn enter_actions(p: &[u8], nodes: &[usize], k: usize, from: usize, entries: &mut [u32]) -> usize
    requires { Asks₃ (Begun p.now nodes.now entries.old k from) × (from + most_facts ≤ length entries.old) }
    ensures { Promises₃ (Begun p.now nodes.now entries.old k from) (λ (s : List ℕ) (P : Protocol) (xs : List Node). NodeEntered p.now nodes.now entries.new (k + 1) result s P xs) }
{
    let count = counts::fact_count(p, nodes, k, figures::ACTIONS);
    for i in 0..count {
        entries[from + i] = (NODE_ACTIONS * k + i) as u32;
    }
    from + count
}

// The actions of the n nodes of a table; how many there are.
pub fn enter_nodes(
    p: &[u8],
    nodes: &[usize],
    n: usize,
    starts: &mut [u32],
    entries: &mut [u32],
) -> usize
    requires { Asks₃ (TableOf p.now nodes.now n) × (n < length starts.old) × (actions_of n ≤ length entries.old) }
    ensures { Promises₃ (TableOf p.now nodes.now n) (λ (s : List ℕ) (P : Protocol) (xs : List Node). AllEntered p.now nodes.now starts.new entries.new result s P xs) }
{
    let mut from = 0;
    for k in 0..n {
        starts[k] = from as u32;
        from = enter_actions(p, nodes, k, from, entries);
    }
    starts[n] = from as u32;
    from
}

// The symbol of each action takes the place of its entry.
pub fn put_symbols(p: &[u8], nodes: &[usize], symbols: &mut [u32])
    requires { Asks₃ (EntriesOf p.now nodes.now symbols.old (length symbols.old)) }
    ensures { Promises₃ (EntriesOf p.now nodes.now symbols.old (length symbols.old)) (λ (s : List ℕ) (P : Protocol) (xs : List Node). SymbolsTo symbols.new (length symbols.old) P xs) }
{
    for y in symbols.iter_mut() {
        let x = action_of(*y);
        *y = symbols::fact_symbol(p, nodes, x) as u32;
    }
}
