//! The grade of a building.
ghost use Rattle.std.specs.Prelude.{◌↔◌, IsTrue};
ghost use Rattle.domain.specs.Buildings.{numbers_of};
ghost use Rattle.totals.specs.Sums.{sums_of};
ghost use Rattle.grades.specs.Grades.{grade_number, energy_emissions, MeetsGrade, IsAwarded, IsOnlyGrade};
ghost use Rattle.totals.specs.Sizes.{IsWithinTotals};

use crate::demands::meets;
use crate::energy_emissions::energy_emissions;
use crate::grading::Grade;
use crate::limits::{low_carbon_limit, near_zero_limit};
use crate::ratios::{low_carbon_ratio, near_zero_ratio};
use domain::Building;
use totals::Totals;

/// The highest grade that the building meets, by its limit or its ratio, at the grams of energy in these totals.
#[tactic(auto, using(crate::proofs::OneGrade::one_grade))]
pub fn grade(building: &Building, totals: Totals) -> Grade
    ensures awarded { IsAwarded (numbers_of building.now) (energy_emissions (sums_of totals)) (grade_number result) }
    ensures only { IsOnlyGrade (numbers_of building.now) (energy_emissions (sums_of totals)) (grade_number result) }
{
    let energy_emissions = energy_emissions(totals);
    if is_near_zero(building, energy_emissions) {
        Grade::NearZero
    } else if is_low_carbon(building, energy_emissions) {
        Grade::LowCarbon
    } else {
        Grade::Ungraded
    }
}

#[tactic(auto, unfolding(crate::specs::Grades::MeetsGrade))]
fn is_near_zero(building: &Building, energy_emissions: i64) -> bool
    requires { IsWithinTotals energy_emissions }
    ensures { IsTrue result ↔ MeetsGrade 2 (numbers_of building.now) energy_emissions }
{
    let limit = near_zero_limit(building);
    let ratio = near_zero_ratio(building.region);
    meets(limit, ratio, building, energy_emissions)
}

#[tactic(auto, unfolding(crate::specs::Grades::MeetsGrade))]
fn is_low_carbon(building: &Building, energy_emissions: i64) -> bool
    requires { IsWithinTotals energy_emissions }
    ensures { IsTrue result ↔ MeetsGrade 1 (numbers_of building.now) energy_emissions }
{
    let limit = low_carbon_limit(building);
    let ratio = low_carbon_ratio(building.region);
    meets(limit, ratio, building, energy_emissions)
}
