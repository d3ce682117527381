//! The emissions of a quantity at a factor, in whole grams.
ghost use Rattle.std.specs.Prelude.{◌<◌, ◌≤◌};
ghost use Rattle.booking.specs.Emissions.{product, GivesGrams};
ghost use Rattle.refusals.specs.declared.refusal.Refusal.TheVariants.{TooLarge};

use crate::method::Terms;
use domain::Factor;
use exact::Fraction;
use refusals::Refusal;

const MAX_PRODUCT: u64 = 1_000_000_000_000_000_000;

// A gram is 10,000 thousandths of a unit at a tenth of a gram per unit.
const PER_GRAM: u32 = 10_000;

// The grams nearest to the exact emissions, if the product is not too large. The only division comes last, so that
// nothing is rounded on the way.
pub(crate) fn grams(thousandths: u64, factor: Factor, terms: Terms) -> Result<u64, Refusal>
    requires thousandths { thousandths ≤ 1000000000 }
    requires divisor { (0 < terms.divisor) × (terms.divisor ≤ 100) }
    ensures { GivesGrams thousandths factor.amount terms result }
{
    let product = (thousandths * u64::from(factor.amount))
        .checked_mul(u64::from(terms.multiplier))
        .filter(|product| *product <= MAX_PRODUCT)
        .ok_or(Refusal::TooLarge)?;
    let exact = Fraction {
        numerator: product as i64,
        divisor: PER_GRAM * u32::from(terms.divisor),
    };
    Ok(exact.round() as u64)
}
