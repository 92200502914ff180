// Judges the properties of the cases of standard input, each under its protocol and over the trace of its step list, and writes a line for
// each: its number, whether it is true and how many nodes have an action, or the refusal.
#![tactic(auto)]

ghost use Rattle.std.specs.Prelude.{◌≤◌, length};
ghost use Rattle.lists.specs.Asks.{Asks, Asks₂};
ghost use Rattle.prepared.specs.Prepared.{Prepared};
ghost use Rattle.steps.specs.Causes.Good.{RightNodes};
ghost use Rattle.case_file.specs.Room.{room};
ghost use Rattle.cases_properties.specs.Passes.{Passes};

use case_file::Case;
use case_nodes::Refusal;
use std::io;
use verdict::Verdict;

// The room for the canonical bytes of two facts.
const WORK: usize = 2 * facts::writing::FACT_ROOM;

// The property's truth over the trace of the n nodes.
fn truth_of(
    p: &[u8; case_nodes::PREPARED],
    file: &[u8],
    list: &[u8],
    nodes: &[usize; case_nodes::TABLE],
    n: usize,
) -> Verdict
    requires { Passes p.now file.now × Asks₂ (RightNodes p.now list.now nodes.now n) }
{
    let mut work = [0u8; WORK];
    verdict::judge_nodes(p, file, list, nodes, n, &mut work)
}

// The causes of the step list behind a good property, or the property's truth. This and the one above are functions of their own: behind a `?`
// the tables would be zeroed twice, where the function begins and where they are made.
fn judge_list(p: &[u8; case_nodes::PREPARED], file: &[u8], list: &[u8]) -> Result<Verdict, Refusal>
    requires { Asks (Prepared p.now) × Passes p.now file.now × (length list.now ≤ room) }
{
    let mut nodes = [0usize; case_nodes::TABLE];
    let n = case_nodes::rule_list(p, list, &mut nodes)?;
    Ok(truth_of(p, file, list, &nodes, n))
}

// The protocol's causes, then those of the property and of the step list; or the property's truth over the trace of the list's nodes.
fn judge_case(protocol: &[u8], file: &[u8], list: &[u8]) -> Result<Verdict, Refusal>
    requires { length list.now ≤ room }
{
    let mut p = [0u8; case_nodes::PREPARED];
    case_nodes::prepare_case(protocol, &mut p)?;
    property::ruling::rule_property(&p, file)?;
    judge_list(&p, file, list)
}

// The bytes of a case are a property's file behind its length, and a step list; a file that is cut off is none.
fn show_case(rt: &impl Print, case: Case<'_>) -> io::Result<()> {
    let (file, list) = case_file::counted(case.bytes).unwrap_or((&[], case.bytes));
    match judge_case(case.under, file, list) {
        Ok(v) => print!(rt; " {} {}", v.truth, v.active),
        Err(r) => case_file::show_refusal(rt, r.number, r.item),
    }
}

fn main(rt: HostRuntime) -> io::Result<()> {
    case_file::show_cases(&rt, |case| show_case(&rt, case))
}
