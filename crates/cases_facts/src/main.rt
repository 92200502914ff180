// Compares the facts of the nodes of the step lists of standard input, each list under its protocol, and writes a line for each list: its
// number; for each fact the number of the first one that is the same; for each argument of these facts the number of the first one that is
// the same message; for each argument which of three public names it is. Or the refusal.
#![tactic(auto)]

ghost use Rattle.cases_facts.specs.Table.{AreRight};

use case_file::Case;
use std::io;
use table::NodeTable;

mod table; // the facts of the nodes, and their arguments
mod outcome; // which of them are the same

// The room for the canonical bytes of two facts.
const OUT: usize = 2 * facts::writing::FACT_ROOM;

// The nodes of a good case.
fn show_nodes(rt: &impl Print, t: NodeTable<'_>) -> io::Result<()>
    requires { AreRight t }
{
    let mut out = [0u8; OUT];
    let facts = table::facts_of(t);
    outcome::show_first_same(rt, t, &facts, &mut out)?;
    print!(rt; " |")?;
    let arguments = table::arguments_of(t, &facts);
    outcome::show_first_same(rt, t, &arguments, &mut out)?;
    print!(rt; " |")?;
    outcome::show_names(rt, t, &arguments, &mut out)
}

fn show_case(rt: &impl Print, case: Case<'_>) -> io::Result<()> {
    let mut p = [0u8; case_nodes::PREPARED];
    let mut nodes = [0usize; case_nodes::TABLE];
    match case_nodes::rule_case(case.under, case.bytes, &mut p, &mut nodes) {
        Ok(n) => show_nodes(
            rt,
            NodeTable {
                p: &p,
                list: case.bytes,
                rows: &nodes,
                n,
            },
        ),
        Err(r) => case_file::show_refusal(rt, r.number, r.item),
    }
}

fn main(rt: HostRuntime) -> io::Result<()> {
    case_file::show_cases(&rt, |case| show_case(&rt, case))
}
