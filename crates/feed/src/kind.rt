//! The kinds of notes: their numbers, their lengths and their words.
ghost use Rattle.std.specs.Prelude.{◌≡◌, Some};
ghost use Rattle.feed.specs.Kinds.{kind_number, DecodesKind, note_length, kind_word};
ghost use Rattle.refusals.specs.declared.refusal.Refusal.TheVariants.{UnexpectedKind};

use refusals::Refusal;
use std::fmt;

/// The kind of a note. Its number in a feed is 1 to 5.
#[derive(Clone, Copy, Debug, PartialEq, Eq)]
pub enum Kind {
    /// The building that a sheet accounts for.
    Building = 1,
    /// A row of the project's own factors.
    Factor = 2,
    /// An entry with a quantity in whole thousandths of a unit.
    Counted = 3,
    /// An entry with a binary64 number of units.
    Measured = 4,
    /// A withdrawal of what was sent under a number.
    Withdrawal = 5,
}

impl Kind {
    /// The length of a note of this kind in bytes.
    pub fn length(self) -> usize
        ensures { result ≡ note_length self }
    {
        match self {
            Kind::Building => 18,
            Kind::Factor => 14,
            Kind::Counted | Kind::Measured => 28,
            Kind::Withdrawal => 12,
        }
    }
}

/// Refused by `UnexpectedKind` (2) if no kind has the number.
impl TryFrom<u16> for Kind {
    type Error = Refusal;

    ghost try_from_gives = { DecodesKind };

    fn try_from(n: u16) -> Result<Kind, Refusal> {
        match n {
            1 => Ok(Kind::Building),
            2 => Ok(Kind::Factor),
            3 => Ok(Kind::Counted),
            4 => Ok(Kind::Measured),
            5 => Ok(Kind::Withdrawal),
            _ => Err(Refusal::UnexpectedKind),
        }
    }
}

impl From<Kind> for u16 {
    ghost from_gives = { λ kind n. n ≡ kind_number kind };

    fn from(kind: Kind) -> u16 {
        kind as u16
    }
}

impl fmt::Display for Kind {
    ghost output = { λ kind. Some (kind_word kind) };

    fn fmt<W: fmt::Write>(&self, f: &mut fmt::Formatter<W>) -> fmt::Result {
        f.write_str(match self {
            Kind::Building => "building",
            Kind::Factor => "factor",
            Kind::Counted => "entry",
            Kind::Measured => "measured",
            Kind::Withdrawal => "withdrawal",
        })
    }
}
