//! Booking an entry in a building, with the factors of a source.
ghost use Rattle.std.specs.Prelude.{IfOk};
ghost use Rattle.refusals.specs.Refusals.{GivesOrRefuses};
ghost use Rattle.booking.specs.Booking.{own_conditions, IsActivity, Books, GivesFactor, IsNearExact};

use crate::emissions::grams;
use crate::line::BookedLine;
use crate::method::{CalculationMethod, Terms};
use crate::quantity::thousandths;
use crate::row::Row;
use domain::{Building, Entry, Factor};
use factors::FactorSource;
use refusals::{LackCodes, Refusal};

/// Books an entry: returns its line, whose grams are nearest to the exact emissions. Refused by `UnknownRow` (5),
/// `InvalidSpan` (6), `InvalidQuantity` (7), `FactorLacking` (8), `InvalidUnit` (9) or `TooLarge` (10). The source is
/// asked once, and not at all where the entry is refused by 5, 6 or 7.
pub fn book<S: FactorSource>(
    building: &Building,
    source: &S,
    entry: &Entry,
) -> Result<BookedLine, Refusal>
    ensures value { Books building.now.life (S.factor_map source.now) entry.now result }
    ensures near { IfOk result (IsNearExact building.now.life (S.factor_map source.now) entry.now) }
{
    let activity = activity_of(building.life, entry)?;
    let head = entry.head;
    let factor = factor_for(source, head.code)?;
    if !activity.method.unit_fits(factor.unit) {
        return Err(Refusal::InvalidUnit);
    }
    let grams = grams(activity.thousandths, factor, activity.terms)?;
    Ok(BookedLine {
        row: activity.row,
        span: head.span,
        code: head.code,
        thousandths: activity.thousandths,
        grams,
    })
}

// The data of an entry that its emissions are calculated from, apart from its factor.
#[derive(Clone, Copy)]
struct Activity {
    row: Row,
    method: CalculationMethod,
    terms: Terms,
    thousandths: u64,
}

// Checks all that needs no factor, for a building with a life of these years.
fn activity_of(years: u16, entry: &Entry) -> Result<Activity, Refusal>
    ensures { GivesOrRefuses (own_conditions entry.now) (IsActivity years entry.now) result }
{
    let head = entry.head;
    let row = Row::try_from(head.row)?;
    let method = row.rule().method;
    let terms = method.terms(years, head.span)?;
    let thousandths = thousandths(entry.quantity)?;
    Ok(Activity {
        row,
        method,
        terms,
        thousandths,
    })
}

// The factor of a code, or the codes of a lack.
fn factor_for<S: FactorSource>(source: &S, code: u32) -> Result<Factor, LackCodes>
    ensures { GivesFactor (S.factor_map source.now code) code result }
{
    source.factor(code).map_err(|lack| LackCodes {
        asked: code,
        lacking: lack.code,
    })
}
