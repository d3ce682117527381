//! The thousandths that a quantity is booked as.
ghost use Rattle.std.specs.Prelude.{pos, IfOk};
ghost use Rattle.domain.specs.declared.entry.Quantity.TheVariants.{Counted, Measured};
ghost use Rattle.exact.specs.Rounding.{IsWithinHalf};
ghost use Rattle.booking.specs.Quantities.{exact_thousandths, BooksThousandths};
ghost use Rattle.refusals.specs.declared.refusal.Refusal.TheVariants.{InvalidQuantity};

use crate::measured::{exact_thousandths, is_in_range};
use domain::Quantity;
use refusals::Refusal;

const MAX_COUNTED: u64 = 1_000_000_000;

/// The booked thousandths of a unit, at most 1,000,000,000: those of a counted quantity unchanged, and those nearest to
/// a measured one, a half going up. Refused by `InvalidQuantity` (7) if the quantity is above 1,000,000 units, negative
/// or not a number.
pub fn thousandths(quantity: Quantity) -> Result<u64, Refusal>
    ensures value { BooksThousandths quantity result }
    ensures near { IfOk result (λ t. IsWithinHalf (pos t) (exact_thousandths quantity)) }
{
    match quantity {
        Quantity::Counted(n) => counted_thousandths(n),
        Quantity::Measured(x) => measured_thousandths(x),
    }
}

fn counted_thousandths(n: u64) -> Result<u64, Refusal>
    ensures { BooksThousandths (Counted n) result }
{
    if n > MAX_COUNTED {
        return Err(Refusal::InvalidQuantity);
    }
    Ok(n)
}

fn measured_thousandths(x: f64) -> Result<u64, Refusal>
    ensures { BooksThousandths (Measured x) result }
{
    if !is_in_range(x) {
        return Err(Refusal::InvalidQuantity);
    }
    Ok(exact_thousandths(x).round())
}
