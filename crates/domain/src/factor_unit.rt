//! The units that factors are per, with their numbers in a feed.
ghost use Rattle.domain.specs.Numbers.{unit_number};
ghost use Rattle.domain.specs.Ranges.{IsUnitNumber};
ghost use Rattle.refusals.specs.declared.refusal.Refusal.TheVariants.{OutOfRange};
ghost use Rattle.refusals.specs.Refusals.{Decodes};

use refusals::Refusal;

/// The unit that the amount of a factor is per. Its number in a feed is 1 to 7.
#[derive(Clone, Copy, Debug, PartialEq, Eq)]
pub enum FactorUnit {
    /// Per tonne.
    Tonne = 1,
    /// Per cubic metre.
    CubicMetre = 2,
    /// Per kilowatt-hour.
    KilowattHour = 3,
    /// Per kilogram.
    Kilogram = 4,
    /// Per tonne carried one kilometre.
    TonneKilometre = 5,
    /// Per piece.
    Piece = 6,
    /// Per square metre.
    SquareMetre = 7,
}

/// Refused by `OutOfRange` (4) if no unit has the number.
impl TryFrom<u16> for FactorUnit {
    type Error = Refusal;

    ghost try_from_gives = { Decodes IsUnitNumber OutOfRange unit_number };

    fn try_from(n: u16) -> Result<FactorUnit, Refusal> {
        match n {
            1 => Ok(FactorUnit::Tonne),
            2 => Ok(FactorUnit::CubicMetre),
            3 => Ok(FactorUnit::KilowattHour),
            4 => Ok(FactorUnit::Kilogram),
            5 => Ok(FactorUnit::TonneKilometre),
            6 => Ok(FactorUnit::Piece),
            7 => Ok(FactorUnit::SquareMetre),
            _ => Err(Refusal::OutOfRange),
        }
    }
}
