//! The types of buildings, with their numbers in a feed.
ghost use Rattle.std.specs.Prelude.{◌≡◌};
ghost use Rattle.domain.specs.Numbers.{type_number};
ghost use Rattle.domain.specs.Ranges.{IsTypeNumber};
ghost use Rattle.refusals.specs.declared.refusal.Refusal.TheVariants.{OutOfRange};
ghost use Rattle.refusals.specs.Refusals.{Decodes};

use refusals::Refusal;

/// What a building is used for. Its number in a feed is 1 to 8.
#[derive(Clone, Copy, Debug, PartialEq, Eq)]
pub enum BuildingType {
    /// A residential building.
    Residential = 1,
    /// A small office building.
    SmallOffice = 2,
    /// A large office building.
    LargeOffice = 3,
    /// A small hotel.
    SmallHotel = 4,
    /// A large hotel.
    LargeHotel = 5,
    /// A shopping centre.
    Shop = 6,
    /// The block of a hospital for treatment and laboratories.
    Hospital = 7,
    /// The teaching building of a school.
    School = 8,
}

/// Refused by `OutOfRange` (4) if no type has the number.
impl TryFrom<u16> for BuildingType {
    type Error = Refusal;

    ghost try_from_gives = { Decodes IsTypeNumber OutOfRange type_number };

    fn try_from(n: u16) -> Result<BuildingType, Refusal> {
        match n {
            1 => Ok(BuildingType::Residential),
            2 => Ok(BuildingType::SmallOffice),
            3 => Ok(BuildingType::LargeOffice),
            4 => Ok(BuildingType::SmallHotel),
            5 => Ok(BuildingType::LargeHotel),
            6 => Ok(BuildingType::Shop),
            7 => Ok(BuildingType::Hospital),
            8 => Ok(BuildingType::School),
            _ => Err(Refusal::OutOfRange),
        }
    }
}

impl From<BuildingType> for u16 {
    ghost from_gives = { λ building_type n. n ≡ type_number building_type };

    fn from(building_type: BuildingType) -> u16 {
        building_type as u16
    }
}
