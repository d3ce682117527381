//! A fraction of two whole numbers, and the whole number nearest to it.
ghost use Rattle.std.specs.Prelude.{◌≡◌, ◌<◌};
ghost use Rattle.exact.specs.Rounding.{nearest_whole, over, IsRounding};

use crate::rounding;

/// The fraction `numerator / divisor`. No `PartialEq`, since one half is both 1/2 and 2/4.
#[derive(Clone, Copy, Debug)]
pub struct Fraction {
    /// The numerator, any number.
    pub numerator: i64,
    /// The divisor, above 0.
    pub divisor: u32,
    ghost divides: { 0 < divisor },
}

impl Fraction {
    /// Rounds to the nearest whole number, a half going up, also below zero: -1/2 gives 0.
    pub fn round(self) -> i64
        ensures value { result ≡ nearest_whole (over self.numerator self.divisor) }
        ensures laws { IsRounding nearest_whole }
    {
        // Euclidean division rounds down, also below zero, so the rest is never negative.
        let divisor = i64::from(self.divisor);
        let whole = self.numerator.div_euclid(divisor);
        let rest = self.numerator.rem_euclid(divisor);
        rounding::round(whole, rest as u64, u64::from(self.divisor))
    }
}
