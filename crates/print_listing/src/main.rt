//! Prints the listing of the feed on standard input.
#![tactic(auto)]

use listing::write_listing;
use std::io;

fn main(rt: HostRuntime) -> io::Result<()> {
    write_listing(rt.alloc(), rt.stdin(), &mut rt.stdout())
}
