//! A fraction whose divisor is a power of two, and the whole number nearest to it.
ghost use Rattle.std.specs.Prelude.{◌≡◌, ◌^◌, ◌<◌, pos};
ghost use Rattle.exact.specs.Rounding.{nearest_whole, over};

use crate::rounding;

/// The fraction `numerator / 2^shift`.
///
/// Not a `Fraction`, since the divisor of a measured quantity may be as large as 2^1074. No `PartialEq`, since one
/// number can be written with many shifts.
#[derive(Clone, Copy, Debug)]
pub struct BinaryFraction {
    /// The numerator, below 2^63.
    pub numerator: u64,
    /// The exponent of the divisor, any number.
    pub shift: u32,
    ghost fits: { numerator < 2 ^ 63 },
}

impl BinaryFraction {
    /// Rounds to the nearest whole number, a half going up.
    pub fn round(self) -> u64
        ensures { pos result ≡ nearest_whole (over (pos self.numerator) (2 ^ self.shift)) }
    {
        let numerator = self.numerator;
        let shift = self.shift;
        // The numerator is below 2^63, so after a larger shift less than a half is left.
        if shift > 63 {
            return 0;
        }
        let whole = numerator >> shift;
        let rest = numerator - (whole << shift);
        rounding::round(whole as i64, rest, 1 << shift) as u64
    }
}
