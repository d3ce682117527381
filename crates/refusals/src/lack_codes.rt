//! The codes that a refusal names where a source lacks a factor.
ghost use Rattle.std.specs.Prelude.{Some};
ghost use Rattle.refusals.specs.RefusalTexts.{lack_codes_text};

use std::error::Error;
use std::fmt;

/// The two codes of a lack. They differ where a source would use the factor of another code and lacks that one.
#[derive(Clone, Copy, Debug, PartialEq, Eq)]
pub struct LackCodes {
    /// The code that the source was asked for.
    pub asked: u32,
    /// The code for which there is no factor.
    pub lacking: u32,
}

impl fmt::Display for LackCodes {
    ghost output = { λ l. Some (lack_codes_text l.asked l.lacking) };

    fn fmt<W: fmt::Write>(&self, f: &mut fmt::Formatter<W>) -> fmt::Result {
        let asked = self.asked;
        let lacking = self.lacking;
        write!(f, "asked={asked} lacking={lacking}")
    }
}

impl Error for LackCodes {}
