//! The refusals, their numbers and their text.
ghost use Rattle.std.specs.Prelude.{◌≡◌, [], ◌∷◌, Some};
ghost use Rattle.refusals.specs.Refusals.{refusal_number, lack_number, refusal_codes};
ghost use Rattle.refusals.specs.RefusalTexts.{refusal_text};

use crate::lack_codes::LackCodes;
use std::error::Error;
use std::fmt;

/// Why a call is refused. Where several reasons apply, the call returns the one with the smallest number.
#[derive(Clone, Copy, Debug, PartialEq, Eq)]
pub enum Refusal {
    /// The bytes do not begin with a whole note (1): they are fewer than four, or the length that the first two give is
    /// less than 4 or more than there are.
    Unframed,
    /// The note is of another kind than the call reads (2).
    UnexpectedKind,
    /// The note is longer or shorter than notes of its kind (3).
    WrongLength,
    /// A number of a building or of a factor is out of range (4).
    OutOfRange,
    /// The row of an entry is not 1 to 22 (5).
    UnknownRow,
    /// The span of an entry does not fit its row (6).
    InvalidSpan,
    /// The quantity of an entry is out of range, infinite or not a number (7).
    InvalidQuantity,
    /// The source lacks the factor of a code (8).
    FactorLacking(LackCodes),
    /// The unit of the factor does not fit the row (9).
    InvalidUnit,
    /// The product of thousandths, amount and multiplier is above 10^18 before it is divided (10).
    TooLarge,
    /// A page is given fewer places than its cut has headings (11).
    TooFewPlaces,
    /// The sheet holds a higher revision of the number, or the same revision with equal content (21).
    Superseded,
    /// The sheet holds the same revision of the number with other content (22).
    Contradicted,
    /// The number is new, and all 512 places of the book are taken (23).
    BookFull,
    /// A feed has more than 256 factor rows after its building (24).
    TooManyFactorRows,
    /// A feed has more than 65,536 bytes (25).
    FeedTooLong,
}

impl Refusal {
    /// The number of the refusal. No `From`, since the number of a lack leaves out its codes.
    pub fn number(self) -> u8
        ensures { result ≡ refusal_number self }
    {
        match self {
            Refusal::Unframed => 1,
            Refusal::UnexpectedKind => 2,
            Refusal::WrongLength => 3,
            Refusal::OutOfRange => 4,
            Refusal::UnknownRow => 5,
            Refusal::InvalidSpan => 6,
            Refusal::InvalidQuantity => 7,
            Refusal::FactorLacking(_) => 8,
            Refusal::InvalidUnit => 9,
            Refusal::TooLarge => 10,
            Refusal::TooFewPlaces => 11,
            Refusal::Superseded => 21,
            Refusal::Contradicted => 22,
            Refusal::BookFull => 23,
            Refusal::TooManyFactorRows => 24,
            Refusal::FeedTooLong => 25,
        }
    }
}

impl From<LackCodes> for Refusal {
    ghost from_gives = { λ l r. (refusal_number r ≡ lack_number) × (refusal_codes r ≡ l.asked ∷ l.lacking ∷ []) };

    fn from(codes: LackCodes) -> Refusal {
        Refusal::FactorLacking(codes)
    }
}

impl fmt::Display for Refusal {
    ghost output = { λ r. Some (refusal_text r) };

    fn fmt<W: fmt::Write>(&self, f: &mut fmt::Formatter<W>) -> fmt::Result {
        let number = self.number();
        match self {
            Refusal::FactorLacking(codes) => write!(f, "refused {number} {codes}"),
            _ => write!(f, "refused {number}"),
        }
    }
}

impl Error for Refusal {}
