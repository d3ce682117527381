//! The booked line of an entry.
ghost use Rattle.std.specs.Prelude.{◌≡◌};
ghost use Rattle.booking.specs.Rows.{row_number, is_subtracted};
ghost use Rattle.booking.specs.Emissions.{IsLineGrams, signed_grams};

use crate::row::Row;
use std::fmt;

/// A booked entry with its emissions. Every line that exists has its grams in range.
#[derive(Clone, Copy, Debug, PartialEq, Eq)]
pub struct BookedLine {
    /// The row of the entry.
    pub row: Row,
    /// Kilometres, years or 0, as its row asks.
    pub span: u16,
    /// The code of its factor.
    pub code: u32,
    /// The booked quantity, in thousandths of a unit.
    pub thousandths: u64,
    /// The emissions in grams of carbon dioxide equivalent, 0 to 100,000,000,000,000. Whether they are subtracted
    /// depends on the row.
    pub grams: u64,
    ghost grams_within: { IsLineGrams grams },
}

impl BookedLine {
    /// The grams with the sign by which they count in a sum: negative in rows that are subtracted.
    pub fn signed_grams(self) -> i64
        ensures { result ≡ signed_grams (is_subtracted (row_number self.row)) self.grams }
    {
        let grams = self.grams as i64;
        if self.row.rule().subtracted {
            -grams
        } else {
            grams
        }
    }
}

impl fmt::Display for BookedLine {
    ghost use Rattle.std.specs.Prelude.{Some};
    ghost use Rattle.booking.specs.LineTexts.{line_text};

    ghost output = { λ line. Some (line_text line) };

    fn fmt<W: fmt::Write>(&self, f: &mut fmt::Formatter<W>) -> fmt::Result {
        let thousandths = self.thousandths;
        let grams = self.signed_grams();
        write!(f, "thousandths={thousandths} grams={grams}")
    }
}
