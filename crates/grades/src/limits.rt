//! The limits of the two grades, from the zero-carbon draft, and which of them applies to a building.
ghost use Rattle.std.specs.Prelude.{◌≡◌, map};
ghost use Rattle.domain.specs.Buildings.{numbers_of};
ghost use Rattle.grades.specs.Limits.{is_for, limit, low_carbon_limits, near_zero_limits, limits_of_row};

use domain::{Building, Region};

// The limits of a region, in tenths of a kilogram per square metre and year: one for each type of building, in the
// order of their numbers. With no sun class they apply to every class.
#[derive(Clone, Copy, Debug, PartialEq, Eq)]
struct LimitRow {
    region: Region,
    sun: Option<u16>,
    limits: [u16; 8],
}

const LOW_CARBON_LIMITS: [LimitRow; 5] = [
    LimitRow {
        region: Region::SevereCold,
        sun: None,
        limits: [230, 230, 250, 300, 350, 650, 550, 150],
    },
    LimitRow {
        region: Region::Cold,
        sun: None,
        limits: [210, 210, 250, 300, 400, 680, 550, 160],
    },
    LimitRow {
        region: Region::HotSummerColdWinter,
        sun: None,
        limits: [210, 210, 280, 330, 430, 750, 600, 200],
    },
    LimitRow {
        region: Region::HotSummerWarmWinter,
        sun: None,
        limits: [230, 230, 300, 360, 450, 850, 650, 250],
    },
    LimitRow {
        region: Region::Mild,
        sun: None,
        limits: [180, 180, 220, 280, 300, 630, 450, 130],
    },
];

// A region has no limit in a sun class that is not here: the zero-carbon draft has a dash there, or does not list it.
const NEAR_ZERO_LIMITS: [LimitRow; 13] = [
    LimitRow {
        region: Region::SevereCold,
        sun: Some(1),
        limits: [140, 160, 190, 200, 240, 490, 405, 100],
    },
    LimitRow {
        region: Region::SevereCold,
        sun: Some(2),
        limits: [150, 170, 200, 220, 250, 510, 425, 110],
    },
    LimitRow {
        region: Region::SevereCold,
        sun: Some(3),
        limits: [160, 180, 210, 240, 265, 535, 445, 120],
    },
    LimitRow {
        region: Region::Cold,
        sun: Some(1),
        limits: [130, 140, 180, 200, 270, 515, 425, 110],
    },
    LimitRow {
        region: Region::Cold,
        sun: Some(2),
        limits: [140, 150, 190, 220, 285, 540, 435, 120],
    },
    LimitRow {
        region: Region::Cold,
        sun: Some(3),
        limits: [160, 160, 200, 240, 300, 560, 450, 130],
    },
    LimitRow {
        region: Region::HotSummerColdWinter,
        sun: Some(3),
        limits: [160, 160, 230, 220, 300, 610, 470, 160],
    },
    LimitRow {
        region: Region::HotSummerColdWinter,
        sun: Some(4),
        limits: [170, 170, 240, 240, 310, 630, 490, 170],
    },
    LimitRow {
        region: Region::HotSummerWarmWinter,
        sun: Some(2),
        limits: [160, 160, 240, 270, 330, 690, 500, 200],
    },
    LimitRow {
        region: Region::HotSummerWarmWinter,
        sun: Some(3),
        limits: [170, 170, 250, 290, 350, 700, 520, 210],
    },
    LimitRow {
        region: Region::Mild,
        sun: Some(2),
        limits: [120, 120, 180, 180, 220, 495, 350, 90],
    },
    LimitRow {
        region: Region::Mild,
        sun: Some(3),
        limits: [130, 130, 180, 190, 230, 520, 370, 100],
    },
    LimitRow {
        region: Region::Mild,
        sun: Some(4),
        limits: [140, 140, 180, 210, 250, 540, 380, 110],
    },
];

#[tactic(auto, unfolding(crate::specs::Limits::low_carbon_limits))]
pub(crate) fn low_carbon_limit(building: &Building) -> Option<u16>
    ensures { result ≡ limit low_carbon_limits (numbers_of building.now) }
{
    limit(&LOW_CARBON_LIMITS, building)
}

#[tactic(auto, unfolding(crate::specs::Limits::near_zero_limits))]
pub(crate) fn near_zero_limit(building: &Building) -> Option<u16>
    ensures { result ≡ limit near_zero_limits (numbers_of building.now) }
{
    limit(&NEAR_ZERO_LIMITS, building)
}

// The limit in the first row that applies to the building.
#[tactic(auto, unfolding(crate::specs::Limits::limit))]
fn limit(table: &[LimitRow], building: &Building) -> Option<u16>
    ensures { result ≡ limit (map limits_of_row table.now) (numbers_of building.now) }
{
    let column = usize::from(u16::from(building.building_type)) - 1;
    for row in table {
        if row.is_for(building) {
            return Some(row.limits[column]);
        }
    }
    None
}

impl LimitRow {
    fn is_for(&self, building: &Building) -> bool
        ensures { result ≡ is_for (limits_of_row self.now) (numbers_of building.now) }
    {
        self.region == building.region && self.sun.is_none_or(|sun| sun == building.sun)
    }
}
