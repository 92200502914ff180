// The ruling of a step list: 3 and 6 in one reading, then 7, 8 and 9 over all nodes.
ghost use Rattle.std.specs.Prelude.{◌≡◌, List, ◌≤◌, length, Result};
ghost use Rattle.octets.specs.Limits.{longest};
ghost use Rattle.lists.specs.Asks.{Asks, Promises, Asks₂, Promises₂};
ghost use Rattle.protocol.specs.Protocol.{Protocol};
ghost use Rattle.prepared.specs.Prepared.{Prepared};
ghost use Rattle.steps.specs.Nodes.{Node, steps};
ghost use Rattle.steps.specs.Table.{RowsOf, NodesIn};
ghost use Rattle.steps.specs.Causes.{node_ruling, list_ruling, steps_item};
ghost use Rattle.rewriting.specs.Answers.{answered};
ghost use Rattle.steps.specs.Causes.Code.{counted, fault_refusal};
ghost use Rattle.steps.specs.Causes.Good.{WhereGood};

use crate::nodes::NodesFault;
use crate::{names, nodes, size_pass, values};
use rewriting::{Refusal, refuse};

// 7, 8 and 9 of the nodes; where they pass, how many there are.
pub fn rule_nodes(p: &[u8], s: &[u8], nodes: &[usize], n: usize) -> Result<usize, Refusal>
    requires { Asks₂ (NodesIn p.now s.now nodes.now n) }
    ensures { Promises₂ (NodesIn p.now s.now nodes.now n) (λ (P : Protocol) (xs : List Node). answered result ≡ counted (node_ruling P xs)) }
{
    refuse(rewriting::VALUE_WRONG, values::value_pass(p, s, nodes, n))?;
    refuse(rewriting::TERM_LONG, size_pass::size_pass(p, s, nodes, n))?;
    refuse(rewriting::NAME_TWICE, names::name_pass(p, s, nodes, n))?;
    Ok(n)
}

// 3 or 6 of a list of nodes, in the file of this item.
pub fn fault_refusal(fault: NodesFault, item: usize) -> Refusal
    ensures { result ≡ fault_refusal fault item }
{
    match fault {
        NodesFault::Broken => Refusal {
            number: rewriting::LAYOUT,
            item,
        },
        NodesFault::NoRule(k) => Refusal {
            number: rewriting::NO_SUCH_RULE,
            item: k,
        },
    }
}

// The whole step list; the table of its nodes is filled in.
pub fn rule_steps(p: &[u8], s: &[u8], nodes: &mut [usize]) -> Result<usize, Refusal>
    requires { Asks (Prepared p.now) × (length s.now ≤ longest) × RowsOf s.now 0 nodes.old }
    ensures ruled { Promises (Prepared p.now) (λ (P : Protocol). answered result ≡ counted (list_ruling P steps_item (steps P s.now))) }
    ensures good { Promises (Prepared p.now) (λ (P : Protocol). WhereGood P p.now s.now nodes.new result) }
{
    match nodes::read_steps(p, s, nodes) {
        Ok((n, _)) => rule_nodes(p, s, nodes, n),
        Err(fault) => Err(fault_refusal(fault, rewriting::STEPS_ITEM)),
    }
}
