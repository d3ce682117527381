//! Prints the reports of stored feeds, each under the name of its file. The names come on standard input, one per line.
#![tactic(auto)]

use report::write_report;
use std::fs::File;
use std::io;

fn main(rt: HostRuntime) -> io::Result<()> {
    for name in rt.lines(rt.alloc()) {
        let name = name?;
        let file = File::open(&rt, name.as_str())?;
        println!(rt; "# {name}")?;
        write_report(rt.alloc(), file, &mut rt.stdout())?;
    }
    Ok(())
}
