//! The emissions of the energy that a building's use takes.
ghost use Rattle.std.specs.Prelude.{◌≡◌, ◌≢◌, ◌||◌, ◌==◌};
ghost use Rattle.booking.specs.Rows.{row_number};
ghost use Rattle.totals.specs.Sums.{sums_of};
ghost use Rattle.grades.specs.Grades.{energy_emissions};
ghost use Rattle.totals.specs.Sizes.{IsWithinTotals};

use booking::Row;
use totals::Totals;

// The grams of energy burnt and bought in use, less the renewables in use, whose grams are below zero.
pub(crate) fn energy_emissions(totals: Totals) -> i64
    ensures value { result ≡ energy_emissions (sums_of totals) }
    ensures within { IsWithinTotals result }
{
    let burnt = both(totals, Row::EquipmentEnergyBurnt, Row::UserEnergyBurnt);
    let bought = both(totals, Row::EquipmentEnergyBought, Row::UserEnergyBought);
    let renewables = grams(totals, Row::Renewables);
    burnt + bought + renewables
}

// The grams of two rows together.
fn both(totals: Totals, equipment: Row, users: Row) -> i64
    requires { row_number equipment ≢ row_number users }
    ensures value { result ≡ (sums_of totals).grams (λ row. row == row_number equipment || row == row_number users) }
    ensures within { IsWithinTotals result }
{
    let by_equipment = grams(totals, equipment);
    let by_users = grams(totals, users);
    by_equipment + by_users
}

// The grams of one row.
fn grams(totals: Totals, row: Row) -> i64
    ensures value { result ≡ (sums_of totals).grams (λ r. r == row_number row) }
    ensures within { IsWithinTotals result }
{
    totals.grams[row.index()]
}
