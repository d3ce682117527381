//! The listing of a feed.
ghost use Rattle.std.specs.Prelude.{IfOk, string_bytes};
ghost use Rattle.listing.specs.Listings.{ListsFeed, IsLastPartLine};
ghost use Rattle.listing.specs.Bases.{basis_of};
ghost use Rattle.feed.specs.Writing.{GrowsByText, IsOnlyText};

use crate::basis::BookingBasis;
use crate::part_line::PartLine;
use feed::{Part, Reader};
use std::alloc::{AllocError, Global};

/// The listing of a feed's bytes, however many: a line for each note, and a last line that says how the feed ends.
pub fn listing(alloc: Global, feed: &[u8]) -> Result<String, AllocError>
    ensures value { IfOk result (λ s. ListsFeed feed.now (string_bytes s)) }
    ensures only { IfOk result (λ s. IsOnlyText (ListsFeed feed.now) (string_bytes s)) }
{
    let basis = BookingBasis::read(alloc, feed)?;
    let mut text = String::new(alloc);
    let mut reader = Reader::new(feed);
    while let Some(part) = reader.next_note() {
        let line = PartLine::of(&basis, &part);
        write!(text, "{line}")?;
    }
    append_last_line(&mut text, &basis, &reader.rest())?;
    Ok(text)
}

// Appends the line for the bytes that are left after the last note.
fn append_last_line(text: &mut String, basis: &BookingBasis, left: &Part) -> Result<(), AllocError>
    ensures { IfOk result (λ _. GrowsByText (IsLastPartLine (basis_of basis.now) left.now)
        (string_bytes text.old) (string_bytes text.new)) }
{
    if left.bytes.is_empty() {
        let start = left.start;
        writeln!(text, "end at={start}")
    } else {
        let line = PartLine::of(basis, left);
        write!(text, "{line}")
    }
}
