// Rules the graphs of the cases of standard input, each under its protocol, and writes a line for each: its number, and how many nodes and
// edges there are or the refusal.
#![tactic(auto)]

ghost use Rattle.std.specs.Prelude.{◌≤◌, length};
ghost use Rattle.lists.specs.Asks.{Asks};
ghost use Rattle.prepared.specs.Prepared.{Prepared};
ghost use Rattle.case_file.specs.Room.{room};

use case_file::Case;
use case_nodes::Refusal;
use std::io;

const WORK: usize = graph::area::FACTS_END;

// The graph's causes, under a prepared protocol; or how many nodes and edges it has. A function of its own: behind a `?` its tables would be
// zeroed twice, where the function begins and where they are made.
fn rule_prepared(p: &[u8; case_nodes::PREPARED], file: &[u8]) -> Result<(usize, usize), Refusal>
    requires { Asks (Prepared p.now) × (length file.now ≤ room) }
{
    let mut nodes = [0usize; case_nodes::TABLE];
    let mut edges = [0u32; graph::edges::TABLE];
    let mut work = [0u8; WORK];
    graph::ruling::rule_graph(p, file, &mut nodes, &mut edges, &mut work)
}

// The protocol's causes, then those of the graph; or how many nodes and edges it has.
fn rule_case(protocol: &[u8], file: &[u8]) -> Result<(usize, usize), Refusal>
    requires { length file.now ≤ room }
{
    let mut p = [0u8; case_nodes::PREPARED];
    case_nodes::prepare_case(protocol, &mut p)?;
    rule_prepared(&p, file)
}

fn show_case(rt: &impl Print, case: Case<'_>) -> io::Result<()> {
    match rule_case(case.under, case.bytes) {
        Ok((n, m)) => print!(rt; " good {n} {m}"),
        Err(r) => case_file::show_refusal(rt, r.number, r.item),
    }
}

fn main(rt: HostRuntime) -> io::Result<()> {
    case_file::show_cases(&rt, |case| show_case(&rt, case))
}
