//! The calculation methods: which spans and units they take, and what an entry is multiplied and divided by.
ghost use Rattle.std.specs.Prelude.{◌≡◌};
ghost use Rattle.domain.specs.Numbers.{unit_number};
ghost use Rattle.booking.specs.Methods.{multiplier, divisor, unit_fits, GivesTerms};
ghost use Rattle.refusals.specs.declared.refusal.Refusal.TheVariants.{InvalidSpan};

use domain::FactorUnit;
use refusals::Refusal;

const MAX_KILOMETRES: u16 = 10_000;

const MAX_YEARS: u16 = 100;

/// How the emissions of a row are calculated. The meaning and the range of an entry's span depend on it.
#[derive(Clone, Copy, Debug, PartialEq, Eq)]
pub enum CalculationMethod {
    /// The quantity is the whole of it. The span is 0.
    OneOff,
    /// The quantity is what is carried, in tonnes. The span is the distance in kilometres, 0 to 10,000.
    DistanceBased,
    /// The quantity is that of one year, and counts for every year of the building's life. The span is 0.
    Annual,
    /// The quantity is that of one replacement, which comes each time the part has served its years. The span is
    /// those years, 1 to 100.
    Replacement,
    /// The quantity is the charge of equipment in kilograms, which leaks out and is refilled once over the equipment's
    /// years. The span is those years, 1 to 100. After the national standard for a building's carbon.
    Leakage,
}

/// What the quantity of an entry is multiplied and divided by.
#[derive(Clone, Copy, Debug, PartialEq, Eq)]
pub struct Terms {
    /// How many times the quantity counts: 1, the kilometres, the building's life in years, or the whole number of
    /// replacements in it.
    pub multiplier: u16,
    /// The years of the equipment for `Leakage`, and 1 otherwise.
    pub divisor: u16,
}

impl CalculationMethod {
    /// The terms of an entry with this span, in a building with a life of these years. Refused by `InvalidSpan` (6).
    pub fn terms(self, years: u16, span: u16) -> Result<Terms, Refusal>
        ensures { GivesTerms self years span result }
    {
        let (multiplier, divisor) = match self {
            CalculationMethod::OneOff if span == 0 => (1, 1),
            CalculationMethod::DistanceBased if span <= MAX_KILOMETRES => (span, 1),
            CalculationMethod::Annual if span == 0 => (years, 1),
            CalculationMethod::Replacement if (1..=MAX_YEARS).contains(&span) => (years / span, 1),
            CalculationMethod::Leakage if (1..=MAX_YEARS).contains(&span) => (years, span),
            _ => return Err(Refusal::InvalidSpan),
        };
        Ok(Terms {
            multiplier,
            divisor,
        })
    }

    /// Whether a factor per this unit fits: `DistanceBased` takes tonne-kilometres, `Leakage` kilograms, and the others
    /// any unit but tonne-kilometres.
    pub fn unit_fits(self, unit: FactorUnit) -> bool
        ensures { result ≡ unit_fits self (unit_number unit) }
    {
        match self {
            CalculationMethod::DistanceBased => unit == FactorUnit::TonneKilometre,
            CalculationMethod::Leakage => unit == FactorUnit::Kilogram,
            _ => unit != FactorUnit::TonneKilometre,
        }
    }
}
