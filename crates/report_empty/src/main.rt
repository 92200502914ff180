// The program on a graph of no nodes with the property that is false.
#![tactic(auto)]

use std::io;

fn main(rt: HostRuntime) -> io::Result<()> {
    report_files::report(&rt)
}
