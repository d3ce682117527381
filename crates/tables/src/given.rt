//! Whether a building is given a grade, at the given emissions of the energy of its use.
ghost use Rattle.std.specs.Prelude.{◌≡◌, ◌+◌, ◌^◌, ◌<◌, ◌↔◌, IsTrue, pos};
ghost use Rattle.domain.specs.Buildings.{numbers_of};
ghost use Rattle.totals.specs.Sums.{sums_of};
ghost use Rattle.grades.specs.Grades.{grade_number, energy_emissions};
ghost use Rattle.tables.specs.Gradings.{IsGiven, IsJustGiven};

use booking::Row;
use domain::Building;
use grades::{Grade, grade};
use totals::{ROWS, Totals};

// Whether the building is given this grade or a higher one.
#[tactic(auto, unfolding(crate::specs::Gradings::IsGiven))]
pub(crate) fn is_given(wanted: Grade, building: &Building, grams: u32) -> bool
    ensures { IsTrue result ↔ IsGiven (grade_number wanted) (numbers_of building.now) grams }
{
    u16::from(grade(building, totals_of(grams))) >= u16::from(wanted)
}

// Whether the building is given this grade or a higher one, and would not be with one gram more.
pub(crate) fn is_just_given(wanted: Grade, building: &Building, grams: u32) -> bool
    requires { grams + 1 < 2 ^ 32 }
    ensures { IsTrue result ↔ IsJustGiven (grade_number wanted) (numbers_of building.now) grams }
{
    is_given(wanted, building, grams) && !is_given(wanted, building, grams + 1)
}

// Totals of nothing but the given grams of energy bought for equipment.
#[tactic(auto, unfolding(totals::specs::Sums::sum_in, totals::specs::Sums::numbered_rows))]
fn totals_of(bought: u32) -> Totals
    ensures { energy_emissions (sums_of result) ≡ pos bought }
{
    let mut grams = [0; ROWS];
    grams[Row::EquipmentEnergyBought.index()] = i64::from(bought);
    Totals {
        grams,
        counts: [0; ROWS],
    }
}
