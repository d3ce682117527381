//! The line of a note, or of bytes that frame none.
ghost use Rattle.std.specs.Prelude.{Some};
ghost use Rattle.listing.specs.ListingLines.{IsPartLine};
ghost use Rattle.listing.specs.StatementTexts.{part_line_text};
ghost use Rattle.listing.specs.Bases.{basis_of};
ghost use Rattle.feed.specs.Writing.{IsOnlyText};

use crate::basis::BookingBasis;
use crate::statement::Statement;
use feed::Part;
use std::fmt;

/// The line of a part of a feed, which prints itself with its line feed.
#[derive(Clone, Copy, Debug, PartialEq, Eq)]
pub struct PartLine {
    place: usize,
    start: usize,
    statement: Statement,
}

impl PartLine {
    /// The line of a part: its place and start, then the fields of its first note and what it is booked at, or the
    /// number of the refusal.
    pub fn of(basis: &BookingBasis, part: &Part) -> PartLine
        ensures value { IsPartLine (basis_of basis.now) part.now (part_line_text result) }
        ensures only { IsOnlyText (IsPartLine (basis_of basis.now) part.now) (part_line_text result) }
    {
        PartLine {
            place: part.place,
            start: part.start,
            statement: Statement::of(basis, part.bytes),
        }
    }
}

impl fmt::Display for PartLine {
    ghost output = { λ line. Some (part_line_text line) };

    fn fmt<W: fmt::Write>(&self, f: &mut fmt::Formatter<W>) -> fmt::Result {
        let PartLine {
            place,
            start,
            statement,
        } = self;
        writeln!(f, "{place} at={start} {statement}")
    }
}
