//! A building: its area, its life, its climate, its type and its reference intensity.
ghost use Rattle.std.specs.Prelude.{Some};
ghost use Rattle.domain.specs.Ranges.{IsArea, IsLife, IsSunClass, IsReference};

use crate::building_type::BuildingType;
use crate::region::Region;
use refusals::Refusal;
use std::fmt;

const MAX_AREA: u32 = 100_000_000;

const MAX_LIFE: u16 = 100;

const MAX_SUN_CLASS: u16 = 4;

const MAX_REFERENCE: u16 = 10_000;

/// The building that a sheet accounts for. Every building that exists has its numbers in range.
#[derive(Clone, Copy, Debug, PartialEq, Eq)]
pub struct Building {
    /// The area in tenths of a square metre, 1 to 100,000,000.
    pub area: u32,
    /// The life of the building in years, 1 to 100.
    pub life: u16,
    /// The climate that it stands in.
    pub region: Region,
    /// The class of solar irradiation where it stands, 1 to 4 for the classes I to IV of the zero-carbon draft. A
    /// number, since the classes have no names.
    pub sun: u16,
    /// What it is used for.
    pub building_type: BuildingType,
    /// The reference intensity, which is that of the zero-carbon draft's baseline for a building of the same form and
    /// use: tenths of a kilogram per square metre and year, 0 to 10,000, and 0 where there is none. No `Option`, since
    /// the range of the field in a feed includes the 0.
    pub reference: u16,
    ghost area_within: { IsArea area },
    ghost life_within: { IsLife life },
    ghost sun_within: { IsSunClass sun },
    ghost reference_within: { IsReference reference },
}

/// The numbers of a building as they were received: any of them may be out of range.
#[derive(Clone, Copy, Debug, PartialEq, Eq)]
pub struct BuildingNumbers {
    /// The area in tenths of a square metre.
    pub area: u32,
    /// The life of the building in years.
    pub life: u16,
    /// The number of its region.
    pub region: u16,
    /// The class of solar irradiation.
    pub sun: u16,
    /// The number of its type.
    pub building_type: u16,
    /// The reference intensity in tenths of a kilogram per square metre and year.
    pub reference: u16,
}

/// Refused by `OutOfRange` (4) unless every number is in its range.
impl TryFrom<BuildingNumbers> for Building {
    ghost use Rattle.domain.specs.Buildings.{numbers_of, IsBuildingInRange};
    ghost use Rattle.refusals.specs.declared.refusal.Refusal.TheVariants.{OutOfRange};
    ghost use Rattle.refusals.specs.Refusals.{Decodes};

    type Error = Refusal;

    ghost try_from_gives = { Decodes IsBuildingInRange OutOfRange numbers_of };

    fn try_from(n: BuildingNumbers) -> Result<Building, Refusal> {
        let fits = (1..=MAX_AREA).contains(&n.area)
            && (1..=MAX_LIFE).contains(&n.life)
            && (1..=MAX_SUN_CLASS).contains(&n.sun)
            && n.reference <= MAX_REFERENCE;
        if !fits {
            return Err(Refusal::OutOfRange);
        }
        Ok(Building {
            area: n.area,
            life: n.life,
            region: n.region.try_into()?,
            sun: n.sun,
            building_type: n.building_type.try_into()?,
            reference: n.reference,
        })
    }
}

impl fmt::Display for Building {
    ghost use Rattle.domain.specs.Buildings.{numbers_of};
    ghost use Rattle.domain.specs.FieldTexts.{building_text};

    ghost output = { λ b. Some (building_text (numbers_of b)) };

    fn fmt<W: fmt::Write>(&self, f: &mut fmt::Formatter<W>) -> fmt::Result {
        let area = self.area;
        let life = self.life;
        let region = u16::from(self.region);
        let sun = self.sun;
        let building_type = u16::from(self.building_type);
        let reference = self.reference;
        write!(
            f,
            "building area={area} life={life} region={region} sun={sun} type={building_type} reference={reference}"
        )
    }
}
