//! Reading a feed and writing its listing.
ghost use Rattle.std.specs.Prelude.{IfOk, OnOk, string_bytes};
ghost use Rattle.feed.specs.Writing.{WritesFor};
ghost use Rattle.listing.specs.WrittenListings.{ListsOrRefuses, IsListing};

use crate::feed_listing::listing;
use feed::{MAX_FEED_BYTES, read_feed};
use refusals::Refusal;
use std::alloc::{AllocError, Global};
use std::io::{self, Read, Write};

/// Reads a feed, and writes its listing as a whole. A feed of more than 65,536 bytes is refused by `FeedTooLong` (25),
/// in one line instead. Fails where reading, memory or writing fails; only where writing itself fails may a part have
/// been written.
pub fn write_listing<R: Read + Drop, W: Write>(
    alloc: Global,
    reader: R,
    writer: &mut W,
) -> io::Result<()>
    ensures { OnOk result (WritesFor IsListing (R.remaining reader) (W.contents writer.old) (W.contents writer.new)) }
{
    let feed = read_feed(alloc, reader)?;
    let text = listing_or_refusal(alloc, feed.as_slice())?;
    writer.write_all(text.as_str().as_bytes())
}

// The listing of a feed, or the line that refuses a feed that is too long.
fn listing_or_refusal(alloc: Global, feed: &[u8]) -> Result<String, AllocError>
    ensures { IfOk result (λ text. ListsOrRefuses feed.now (string_bytes text)) }
{
    if feed.len() > MAX_FEED_BYTES {
        let refusal = Refusal::FeedTooLong;
        return format!(in alloc; "{refusal}\n");
    }
    listing(alloc, feed)
}
