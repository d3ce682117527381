//! The error of a source that has no factor for a code.
ghost use Rattle.std.specs.Prelude.{Some};
ghost use Rattle.factors.specs.LackTexts.{lack_text};

use std::error::Error;
use std::fmt;

/// A code without a factor. It need not be the one that was asked for, since a source may need the factor of another
/// code to answer.
#[derive(Clone, Copy, Debug, PartialEq, Eq)]
pub struct Lack {
    /// The code that is lacking.
    pub code: u32,
}

impl fmt::Display for Lack {
    ghost output = { λ lack. Some (lack_text lack.code) };

    fn fmt<W: fmt::Write>(&self, f: &mut fmt::Formatter<W>) -> fmt::Result {
        let code = self.code;
        write!(f, "lacking={code}")
    }
}

impl Error for Lack {}
