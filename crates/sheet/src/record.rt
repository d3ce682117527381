//! What a book keeps of a booked line.
ghost use Rattle.std.specs.Prelude.{◌≡◌, Some, option_map};
ghost use Rattle.booking.specs.Booking.{line_numbers};
ghost use Rattle.sheet.specs.LineSums.{line_in_range};
ghost use Rattle.sheet.specs.Places.{record_numbers};

use booking::{BookedLine, Row};

// The largest grams of a line.
const MAX_GRAMS: u64 = 100_000_000_000_000;

// A booked line without its range, so that places are plain records.
#[derive(Clone, Copy, Debug, PartialEq, Eq)]
pub(crate) struct LineRecord {
    pub row: Row,
    pub span: u16,
    pub code: u32,
    pub thousandths: u64,
    pub grams: u64,
}

impl From<BookedLine> for LineRecord {
    ghost from_gives = { λ line r. record_numbers r ≡ line_numbers line };

    fn from(line: BookedLine) -> LineRecord {
        LineRecord {
            row: line.row,
            span: line.span,
            code: line.code,
            thousandths: line.thousandths,
            grams: line.grams,
        }
    }
}

impl LineRecord {
    // The line, if its grams are in range. Those of an accepted one are, but its type does not say so.
    pub(crate) fn line(self) -> Option<BookedLine>
        ensures { option_map line_numbers result ≡ line_in_range (Some (record_numbers self)) }
    {
        if self.grams > MAX_GRAMS {
            return None;
        }
        Some(BookedLine {
            row: self.row,
            span: self.span,
            code: self.code,
            thousandths: self.thousandths,
            grams: self.grams,
        })
    }
}
