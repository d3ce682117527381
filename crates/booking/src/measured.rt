//! A measured quantity: the test of its range, and its exact value from its bits, without floating-point arithmetic.
ghost use Rattle.std.specs.Prelude.{◌^◌, ◌↔◌, IsTrue, pos};
ghost use Rattle.exact.specs.Rounding.{over, IsSame};
ghost use Rattle.booking.specs.Quantities.{IsMeasuredInRange, measured_thousandths};

use exact::BinaryFraction;

const MAX_MEASURED: f64 = 1_000_000.0;

// A binary64 number consists of a sign, an exponent and the lower 52 of its 53 binary digits.
const SIGN: u64 = 1 << 63;

const DIGITS: u32 = 52;

const LEADING_DIGIT: u64 = 1 << DIGITS;

// The smallest numbers have the exponent 0 and no leading digit: they are multiples of 2^-1074.
const SMALLEST: u32 = 1074;

pub(crate) fn is_in_range(x: f64) -> bool
    ensures { IsTrue result ↔ IsMeasuredInRange x }
{
    if x.is_nan() {
        return false;
    }
    x >= 0.0 && x <= MAX_MEASURED
}

// The exact thousandths of a measured quantity.
pub(crate) fn exact_thousandths(x: f64) -> BinaryFraction
    requires { IsMeasuredInRange x }
    ensures { IsSame (over (pos result.numerator) (2 ^ result.shift)) (measured_thousandths x) }
{
    // In range only zero can be negative, so the sign can be dropped.
    let size = x.to_bits() % SIGN;
    let exponent = (size >> DIGITS) as u32;
    let digits = size % LEADING_DIGIT;
    if exponent == 0 {
        return BinaryFraction {
            numerator: digits * 1_000,
            shift: SMALLEST,
        };
    }
    // A number of at most a million has an exponent far below 1075, so the subtraction cannot wrap.
    BinaryFraction {
        numerator: (LEADING_DIGIT + digits) * 1_000,
        shift: SMALLEST + 1 - exponent,
    }
}
