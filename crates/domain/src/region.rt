//! The climates that buildings stand in, with their numbers in a feed.
ghost use Rattle.std.specs.Prelude.{◌≡◌};
ghost use Rattle.domain.specs.Numbers.{region_number};
ghost use Rattle.domain.specs.Ranges.{IsRegionNumber};
ghost use Rattle.refusals.specs.declared.refusal.Refusal.TheVariants.{OutOfRange};
ghost use Rattle.refusals.specs.Refusals.{Decodes};

use refusals::Refusal;

/// The climate that a building stands in. Its number in a feed is 1 to 5.
#[derive(Clone, Copy, Debug, PartialEq, Eq)]
pub enum Region {
    /// Severe cold.
    SevereCold = 1,
    /// Cold.
    Cold = 2,
    /// Hot summers and cold winters.
    HotSummerColdWinter = 3,
    /// Hot summers and warm winters.
    HotSummerWarmWinter = 4,
    /// Mild.
    Mild = 5,
}

/// Refused by `OutOfRange` (4) if no region has the number.
impl TryFrom<u16> for Region {
    type Error = Refusal;

    ghost try_from_gives = { Decodes IsRegionNumber OutOfRange region_number };

    fn try_from(n: u16) -> Result<Region, Refusal> {
        match n {
            1 => Ok(Region::SevereCold),
            2 => Ok(Region::Cold),
            3 => Ok(Region::HotSummerColdWinter),
            4 => Ok(Region::HotSummerWarmWinter),
            5 => Ok(Region::Mild),
            _ => Err(Refusal::OutOfRange),
        }
    }
}

impl From<Region> for u16 {
    ghost from_gives = { λ region n. n ≡ region_number region };

    fn from(region: Region) -> u16 {
        region as u16
    }
}
