// What the test programs over nodes share: the protocol of a case, prepared, and the step list of a case, ruled under it.
#![tactic(auto)]

ghost use Rattle.std.specs.Prelude.{◌≤◌, length, OnOk};
ghost use Rattle.lists.specs.Asks.{Asks};
ghost use Rattle.octets.specs.Limits.{longest};
ghost use Rattle.prepared.specs.Prepared.{Prepared};
ghost use Rattle.case_nodes.specs.Good.{WhereGood};

pub use rewriting::Refusal;
use rules::fit::Unfit;
use steps::ruling;

// "Protocol (4,096 bytes)"
const PROTOCOL_LIMIT: usize = prepared::sections::FILE_LIMIT;

// The room for a prepared protocol, and for the table of nodes.
pub const PREPARED: usize = prepared::sections::PREPARED;

pub const TABLE: usize = steps::nodes::TABLE;

// The list's causes, under a prepared protocol; or how many nodes it has.
pub fn rule_list(
    p: &[u8; PREPARED],
    list: &[u8],
    nodes: &mut [usize; TABLE],
) -> Result<usize, Refusal>
    requires { Asks (Prepared p.now) × (length list.now ≤ longest) }
    ensures { WhereGood p.now list.now nodes.new result }
{
    ruling::rule_steps(p, list, nodes)
}

// The protocol's causes 2, 3 and 4. The prepared protocol is filled in.
pub fn prepare_case(protocol: &[u8], p: &mut [u8; PREPARED]) -> Result<(), Refusal>
    ensures { OnOk result (Asks (Prepared p.new)) }
{
    if PROTOCOL_LIMIT < protocol.len() {
        return Err(Refusal {
            number: rewriting::FILE_LONG,
            item: rewriting::PROTOCOL_ITEM,
        });
    }
    match prepared::list_places::prepare(protocol, p) {
        Ok(_) => Ok(()),
        Err(Unfit::Broken(k)) => Err(Refusal {
            number: rewriting::CONDITION_BROKEN,
            item: k,
        }),
        Err(Unfit::Fault) => Err(Refusal {
            number: rewriting::LAYOUT,
            item: rewriting::PROTOCOL_ITEM,
        }),
    }
}

// The protocol's causes, then those of the list. The prepared protocol and the table of nodes are filled in.
pub fn rule_case(
    protocol: &[u8],
    list: &[u8],
    p: &mut [u8; PREPARED],
    nodes: &mut [usize; TABLE],
) -> Result<usize, Refusal>
    requires { length list.now ≤ longest }
    ensures { WhereGood p.new list.now nodes.new result }
{
    prepare_case(protocol, p)?;
    rule_list(p, list, nodes)
}
