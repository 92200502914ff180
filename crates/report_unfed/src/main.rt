// The program on that case without its last edge.
#![tactic(auto)]

use std::io;

fn main(rt: HostRuntime) -> io::Result<()> {
    report_files::report(&rt)
}
