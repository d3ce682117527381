//! A factor: the emissions of one unit of something.
ghost use Rattle.std.specs.Prelude.{Some};
ghost use Rattle.domain.specs.Ranges.{IsAmount};

use crate::factor_unit::FactorUnit;
use refusals::Refusal;
use std::fmt;

const MAX_AMOUNT: u32 = 1_000_000_000;

/// The emissions of one unit of something. Every factor that exists has its amount in range.
#[derive(Clone, Copy, Debug, PartialEq, Eq)]
pub struct Factor {
    /// Tenths of a gram of carbon dioxide equivalent per unit, 0 to 1,000,000,000.
    pub amount: u32,
    /// The unit that the amount is per.
    pub unit: FactorUnit,
    ghost amount_within: { IsAmount amount },
}

/// The numbers of a factor as they were received: either of them may be out of range.
#[derive(Clone, Copy, Debug, PartialEq, Eq)]
pub struct FactorNumbers {
    /// Tenths of a gram of carbon dioxide equivalent per unit.
    pub amount: u32,
    /// The number of a unit.
    pub unit: u16,
}

/// A row of a list of factors, as it was received. It gives a factor only if its numbers are in range.
#[derive(Clone, Copy, Debug, PartialEq, Eq)]
pub struct FactorRow {
    /// The code that entries name the factor by, any number.
    pub code: u32,
    /// The numbers of its factor.
    pub factor: FactorNumbers,
}

/// Refused by `OutOfRange` (4) unless both numbers are in range.
impl TryFrom<FactorNumbers> for Factor {
    ghost use Rattle.domain.specs.Factors.{factor_numbers, IsFactorInRange};
    ghost use Rattle.refusals.specs.declared.refusal.Refusal.TheVariants.{OutOfRange};
    ghost use Rattle.refusals.specs.Refusals.{Decodes};

    type Error = Refusal;

    ghost try_from_gives = { Decodes IsFactorInRange OutOfRange factor_numbers };

    fn try_from(n: FactorNumbers) -> Result<Factor, Refusal> {
        if n.amount > MAX_AMOUNT {
            return Err(Refusal::OutOfRange);
        }
        Ok(Factor {
            amount: n.amount,
            unit: n.unit.try_into()?,
        })
    }
}

impl fmt::Display for FactorRow {
    ghost use Rattle.domain.specs.FieldTexts.{factor_row_text};

    ghost output = { λ row. Some (factor_row_text row) };

    fn fmt<W: fmt::Write>(&self, f: &mut fmt::Formatter<W>) -> fmt::Result {
        let code = self.code;
        let amount = self.factor.amount;
        let unit = self.factor.unit;
        write!(f, "factor code={code} amount={amount} unit={unit}")
    }
}
