//! The buildings that are graded to find the tables' figures.
ghost use Rattle.std.specs.Prelude.{◌≡◌};
ghost use Rattle.domain.specs.Numbers.{region_number, type_number};
ghost use Rattle.domain.specs.Ranges.{IsSunClass, IsReference};
ghost use Rattle.domain.specs.Buildings.{numbers_of};
ghost use Rattle.tables.specs.Sites.{square_metre};

use domain::{Building, BuildingType, Region};

// A square metre, in tenths of one.
const AREA: u32 = 10;

const LIFE: u16 = 1;

// The reference of a building that has none.
pub(crate) const NO_REFERENCE: u16 = 0;

// A building of one square metre and one year: a tenth of a kilogram per square metre and year is 100 grams for it.
pub(crate) fn square_metre(
    region: Region,
    sun: u16,
    building_type: BuildingType,
    reference: u16,
) -> Building
    requires sun { IsSunClass sun }
    requires reference { IsReference reference }
    ensures { numbers_of result ≡ square_metre (region_number region) sun (type_number building_type) reference }
{
    Building {
        area: AREA,
        life: LIFE,
        region,
        sun,
        building_type,
        reference,
    }
}
