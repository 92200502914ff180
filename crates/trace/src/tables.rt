// The tables of a trace: where the actions of each node begin, the symbol of each action, the class of each argument.
ghost use Rattle.std.specs.Prelude.{List, ◌*◌, ◌≤◌, ◌<◌, length};
ghost use Rattle.lists.specs.Asks.{Asks₂, Promises₂};
ghost use Rattle.protocol.specs.Protocol.{Protocol};
ghost use Rattle.steps.specs.Nodes.{Node};
ghost use Rattle.steps.specs.Causes.Good.{RightNodes};
ghost use Rattle.facts.specs.Writing.{fact_room};
ghost use Rattle.facts.specs.Calls.{Room};
ghost use Rattle.trace.specs.Tables.{actions_of, stride, Tables};

use crate::{classes, entries, numbers};

// The lengths that are enough for the tables, of all nodes or of few, and for the work slice: the canonical bytes of two facts.
pub const STARTS: usize = steps::nodes::MOST_NODES + 1;

pub const SYMBOLS: usize = entries::MOST_ACTIONS;

pub const CLASSES: usize = numbers::PLACES;

pub const FEW_STARTS: usize = steps::nodes::FEW_NODES + 1;

pub const FEW_SYMBOLS: usize = entries::FEW_ACTIONS;

pub const FEW_CLASSES: usize = numbers::FEW_PLACES;

pub const WORK: usize = 2 * facts::writing::FACT_ROOM;

// The actions of the n nodes of a table, in numbers. Canonical bytes go into the work slice. Until the arguments are classed, the table of
// symbols holds the entries.
pub fn make_tables(
    work: &mut [u8],
    p: &[u8],
    s: &[u8],
    nodes: &[usize],
    n: usize,
    starts: &mut [u32],
    symbols: &mut [u32],
    classes: &mut [u32],
)
    requires { Asks₂ (RightNodes p.now s.now nodes.now n) × Room work.old fact_room × (n < length starts.old) × (actions_of n ≤ length symbols.old) × (stride * actions_of n ≤ length classes.old) }
    ensures { Promises₂ (RightNodes p.now s.now nodes.now n) (λ (P : Protocol) (xs : List Node). Tables starts.new symbols.new classes.new P xs) }
{
    let total = entries::enter_nodes(p, nodes, n, starts, symbols);
    let listed = &mut symbols[..total];
    classes::class_arguments(work, p, s, nodes, listed, classes);
    entries::put_symbols(p, nodes, listed);
}
