// The program on a property of one byte more than the limit.
#![tactic(auto)]

use std::io;

fn main(rt: HostRuntime) -> io::Result<()> {
    report_files::report(&rt)
}
