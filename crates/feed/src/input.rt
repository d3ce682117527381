//! Reading a whole feed into memory.
ghost use Rattle.std.specs.Prelude.{◌≡◌, IfOk, IfSome, take, ◌+◌};
ghost use Rattle.feed.specs.declared.input.TheConstants.{MAX_FEED_BYTES};

use std::alloc::Global;
use std::io::{self, Read};

/// The most bytes that a feed may have in the programs.
pub const MAX_FEED_BYTES: usize = 65_536;

/// Reads all that the reader still has, but at most `MAX_FEED_BYTES` and one more byte, which shows that a feed is too
/// long. Fails where the reader or the allocator does. Of a reader whose type does not say what it has, nothing is
/// promised.
pub fn read_feed<R: Read + Drop>(alloc: Global, reader: R) -> io::Result<Vec<u8>>
    ensures { IfOk result (λ bytes. IfSome (R.remaining reader) (λ feed. bytes.items ≡ take (MAX_FEED_BYTES + 1) feed)) }
{
    let mut feed = Vec::new(alloc);
    reader
        .take(MAX_FEED_BYTES as u64 + 1)
        .read_to_end(&mut feed)?;
    Ok(feed)
}
