//! Reading a feed and writing its report.
ghost use Rattle.std.specs.Prelude.{OnOk};
ghost use Rattle.feed.specs.Writing.{WritesFor};
ghost use Rattle.report.specs.Reports.{IsReport};

use crate::feed_report::report;
use feed::read_feed;
use std::alloc::Global;
use std::io::{self, Read, Write};

/// Reads a feed, and writes its report as a whole. Fails where reading, memory or writing fails; only where writing
/// itself fails may a part have been written. Of a feed that is too long, no more than 65,537 bytes are read.
pub fn write_report<R: Read + Drop, W: Write>(
    alloc: Global,
    reader: R,
    writer: &mut W,
) -> io::Result<()>
    ensures { OnOk result (WritesFor IsReport (R.remaining reader) (W.contents writer.old) (W.contents writer.new)) }
{
    let feed = read_feed(alloc, reader)?;
    let text = report(alloc, feed.as_slice())?;
    writer.write_all(text.as_str().as_bytes())
}
