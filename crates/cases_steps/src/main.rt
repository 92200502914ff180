// Rules the step lists of the cases of standard input, each under its protocol, and writes a line for each: its number, and how many
// nodes there are or the refusal.
#![tactic(auto)]

use case_file::Case;
use std::io;

fn show_case(rt: &impl Print, case: Case<'_>) -> io::Result<()> {
    let mut p = [0u8; case_nodes::PREPARED];
    let mut nodes = [0usize; case_nodes::TABLE];
    match case_nodes::rule_case(case.under, case.bytes, &mut p, &mut nodes) {
        Ok(n) => print!(rt; " good {n}"),
        Err(r) => case_file::show_refusal(rt, r.number, r.item),
    }
}

fn main(rt: HostRuntime) -> io::Result<()> {
    case_file::show_cases(&rt, |case| show_case(&rt, case))
}
