//! The source that adds recycled material to another source.
ghost use Rattle.std.specs.Prelude.{◌≡◌};
ghost use Rattle.domain.specs.Factors.{factor_numbers};
ghost use Rattle.factors.specs.Layers.{half_factor, recycled_map};

use crate::lack::Lack;
use crate::source::FactorSource;
use domain::{Factor, FactorUnit};
use exact::Fraction;

// The code of a recycled material is that of the new material plus this.
const RECYCLED: u32 = 1_000_000;

const LAST_RECYCLED: u32 = 1_999_999;

/// The source below, and recycled material under the codes from 1,000,001 to 1,999,999: half the amount of the code
/// that is 1,000,000 less, a half going up, after the accounting draft. Only a factor per tonne is halved; for any
/// other unit the code that was asked for is lacking.
#[derive(Clone, Copy, Debug, Drop, PartialEq, Eq)]
pub struct Recycled<S> {
    /// The source of all other codes, and of the factors of new material. Its lack of a new material is passed on.
    pub below: S,
}

impl<S: FactorSource> FactorSource for Recycled<S> {
    ghost factor_map = { λ s. recycled_map (S.factor_map s.below) };

    fn factor(&self, code: u32) -> Result<Factor, Lack> {
        if code <= RECYCLED || code > LAST_RECYCLED {
            return self.below.factor(code);
        }
        let new = self.below.factor(code - RECYCLED)?;
        if new.unit != FactorUnit::Tonne {
            return Err(Lack { code });
        }
        Ok(half_of(new))
    }
}

fn half_of(new: Factor) -> Factor
    ensures { factor_numbers result ≡ half_factor (factor_numbers new) }
{
    let half = Fraction {
        numerator: i64::from(new.amount),
        divisor: 2,
    };
    Factor {
        amount: half.round() as u32,
        unit: new.unit,
    }
}
