//! What a grade demands: a limit, or a ratio to the building's reference.
ghost use Rattle.std.specs.Prelude.{◌≡◌, ◌≢◌, ◌-◌, ◌*◌, ◌≤◌, ◌↔◌, IsTrue, pos, ◌*ℤ◌, ◌≤ℤ◌};
ghost use Rattle.domain.specs.Buildings.{numbers_of};
ghost use Rattle.grades.specs.Grades.{grams_over_life, LimitHolds, RatioHolds, Meets};
ghost use Rattle.totals.specs.Sizes.{IsWithinTotals};

use domain::{Building, BuildingType};

// A tenth of a kilogram per square metre, in grams per tenth of a square metre.
const GRAMS: u64 = 10;

// The reference of a building that has none.
const NO_REFERENCE: u16 = 0;

// The whole of a reference, in per cent.
const WHOLE: u16 = 100;

// Whether the building meets the limit or the ratio.
pub(crate) fn meets(
    limit: Option<u16>,
    ratio: u16,
    building: &Building,
    energy_emissions: i64,
) -> bool
    requires share { ratio ≤ 100 }
    requires within { IsWithinTotals energy_emissions }
    ensures { IsTrue result ↔ Meets limit ratio (numbers_of building.now) energy_emissions }
{
    limit_holds(limit, building, energy_emissions) || ratio_holds(ratio, building, energy_emissions)
}

// Whether the emissions are within the limit; false where there is none.
fn limit_holds(limit: Option<u16>, building: &Building, energy_emissions: i64) -> bool
    ensures { IsTrue result ↔ LimitHolds limit (numbers_of building.now) energy_emissions }
{
    match limit {
        Some(limit) => energy_emissions <= grams_over_life(building, limit) as i64,
        None => false,
    }
}

// Whether the emissions meet the ratio. Homes and buildings with no reference have only the limit.
fn ratio_holds(ratio: u16, building: &Building, energy_emissions: i64) -> bool
    requires share { ratio ≤ 100 }
    requires within { IsWithinTotals energy_emissions }
    ensures { IsTrue result ↔ RatioHolds ratio (numbers_of building.now) energy_emissions }
{
    ratio_applies(building) && is_below(ratio, building, energy_emissions)
}

// Whether the building has a reference that its emissions are compared with.
fn ratio_applies(building: &Building) -> bool
    ensures { IsTrue result ↔ ((numbers_of building.now).building_type ≢ 1) × (building.now.reference ≢ 0) }
{
    building.building_type != BuildingType::Residential && building.reference != NO_REFERENCE
}

// Whether the emissions are the given per cent below the reference, or further.
fn is_below(ratio: u16, building: &Building, energy_emissions: i64) -> bool
    requires share { ratio ≤ 100 }
    requires within { IsWithinTotals energy_emissions }
    ensures { IsTrue result ↔
        ((pos 100 *ℤ energy_emissions) ≤ℤ
        pos ((100 - ratio) * grams_over_life (numbers_of building.now) building.now.reference)) }
{
    let left = u64::from(WHOLE - ratio) * grams_over_life(building, building.reference);
    i64::from(WHOLE) * energy_emissions <= left as i64
}

// An intensity, in tenths of a kilogram per square metre and year, over the building's area and life: in grams.
fn grams_over_life(building: &Building, intensity: u16) -> u64
    ensures value { result ≡ grams_over_life (numbers_of building.now) intensity }
    ensures within { result ≤ 10000000000000000 }
{
    let yearly = GRAMS * u64::from(intensity) * u64::from(building.area);
    yearly * u64::from(building.life)
}
