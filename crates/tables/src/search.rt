//! The demands of a grade, which no call returns: they are found by the emissions at which the grade is still given.
ghost use Rattle.domain.specs.Buildings.{numbers_of};
ghost use Rattle.grades.specs.Grades.{grade_number};
ghost use Rattle.tables.specs.Gradings.{IsGivenWithin, IsGivenBelow};
ghost use Rattle.tables.specs.Searches.{FindsLargest};

use crate::given::{is_given, is_just_given};
use domain::Building;
use grades::Grade;

// The end of the limits that are tried, in tenths of a kilogram per square metre and year: over twice the highest one.
const LIMITS_END: u16 = 2_001;

// The grams of a limit of one tenth, for one square metre and one year.
pub(crate) const LIMIT_GRAMS: u32 = 100;

// The whole of a reference, in per cent.
const WHOLE: u16 = 100;

// The end of the shares that are tried, which are all from 0 to 100 per cent.
const SHARES_END: u16 = WHOLE + 1;

// The highest reference, in tenths of a kilogram. A ratio of it allows far more than any limit, which has no effect.
pub(crate) const REFERENCE: u16 = 10_000;

// The grams of one per cent of that reference, for one square metre and one year.
const SHARE_GRAMS: u32 = 10_000;

// The largest limit within which the grade is given for one square metre and one year; none where there is none.
#[tactic(auto, unfolding(crate::specs::Searches::FindsLargest))]
pub(crate) fn largest_limit(grade: Grade, building: &Building) -> Option<u16>
    ensures { FindsLargest (IsGivenWithin (grade_number grade) (numbers_of building.now)) 2001 result }
{
    let mut largest = None;
    for limit in 0..LIMITS_END {
        if is_given(grade, building, LIMIT_GRAMS * u32::from(limit)) {
            largest = Some(limit);
        }
    }
    largest
}

// By how many per cent the emissions have to be below the reference, to the gram; none where it is no whole number.
#[tactic(auto, unfolding(crate::specs::Searches::FindsLargest))]
pub(crate) fn largest_share(grade: Grade, building: &Building) -> Option<u16>
    ensures { FindsLargest (IsGivenBelow (grade_number grade) (numbers_of building.now)) 101 result }
{
    let mut largest = None;
    for share in 0..SHARES_END {
        if is_just_given(grade, building, SHARE_GRAMS * u32::from(WHOLE - share)) {
            largest = Some(share);
        }
    }
    largest
}
