//! All the calls of one sheet, from its opening to a page and a grade.
ghost use Rattle.std.specs.Prelude.{map};
ghost use Rattle.domain.specs.Buildings.{numbers_of};
ghost use Rattle.grades.specs.Grades.{grade_number};
ghost use Rattle.sheet.specs.PageAndGrade.{IsPageAndGrade};

use crate::sheet::Sheet;
use domain::Building;
use factors::FactorSource;
use grades::Grade;
use pages::{Cut, Figure};
use refusals::Refusal;

/// Opens a sheet, sends it these bytes in their order, refused or not, and returns the total of a page by the cut, and
/// the grade. The page is written into `figures`, or refused by `TooFewPlaces` (11), as by `Sheet::page`.
pub fn page_and_grade<S: FactorSource + Drop, C: Cut>(
    building: Building,
    source: S,
    sends: &[&[u8]],
    cut: &C,
    figures: &mut [Figure],
) -> (Result<Figure, Refusal>, Grade)
    // Opening, these sends, a page and a grade are a history, and the law holds of the page and the grade.
    ensures { IsPageAndGrade (numbers_of building) (S.factor_map source)
        (map (λ bytes. bytes.now) sends.now)
        (C.assignment cut.now) figures.old result.0 figures.new
        (grade_number result.1) }
{
    let mut sheet = Sheet::open(building, source);
    for bytes in sends {
        let _ = sheet.send(bytes);
    }
    let total = sheet.page(cut, figures);
    (total, sheet.grade())
}
