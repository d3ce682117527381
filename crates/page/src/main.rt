//! Prints the report of the feed on standard input.
#![tactic(auto)]

use report::write_report;
use std::io;

fn main(rt: HostRuntime) -> io::Result<()> {
    write_report(rt.alloc(), rt.stdin(), &mut rt.stdout())
}
