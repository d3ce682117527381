//! A project: the building that a feed opens with, and the project's own factors.
ghost use Rattle.std.specs.Prelude.{List, ℕ, ◌≤◌, length};
ghost use Rattle.feed.specs.Readings.{ReadsFactorRow};
ghost use Rattle.feed.specs.FactorRows.{ReadsEachRow};
ghost use Rattle.refusals.specs.declared.refusal.Refusal.TheVariants.{FeedTooLong};
ghost use Rattle.refusals.specs.Refusals.{GivesOrRefusesBy};
ghost use Rattle.report.specs.Projects.{ReadsProject, ReadsFactorRowAfter, ReadsOwnFactorRows};
ghost use Rattle.feed.specs.declared.input.TheConstants.{MAX_FEED_BYTES};

use domain::{Building, FactorRow};
use feed::{MAX_FEED_BYTES, Opening, OpeningError};
use refusals::Refusal;
use std::alloc::Global;

// The largest number of rows in a project's list.
const MAX_ROWS: usize = 256;

#[derive(Debug, Drop)]
pub(crate) struct Project<'a> {
    pub building: Building,
    pub rows: Vec<FactorRow>,
    // The bytes after the rows, which are sent.
    pub notes: &'a [u8],
}

impl<'a> Project<'a> {
    // Reads the project that a feed opens with. Refused by `FeedTooLong` (25), by 1 to 4 where the building or a row
    // is, or by `TooManyFactorRows` (24).
    pub(crate) fn read(alloc: Global, feed: &'a [u8]) -> Result<Project<'a>, OpeningError>
        ensures { ReadsProject feed.now result }
    {
        check_length(feed)?;
        let opening = Opening::read(alloc, feed)?;
        let rows = own_factor_rows(alloc, opening.rows.as_slice())?;
        Ok(Project {
            building: opening.building,
            rows,
            notes: opening.rest.rest().bytes,
        })
    }
}

fn check_length(feed: &[u8]) -> Result<(), Refusal>
    ensures { GivesOrRefusesBy (length feed.now ≤ MAX_FEED_BYTES) FeedTooLong (λ _. Unit {0}) result }
{
    if feed.len() > MAX_FEED_BYTES {
        return Err(Refusal::FeedTooLong);
    }
    Ok(())
}

// The project's own factors: every row, or the refusal of the first that is refused.
fn own_factor_rows(
    alloc: Global,
    answers: &[Result<FactorRow, Refusal>],
) -> Result<Vec<FactorRow>, OpeningError>
    // Of any notes whose reading these are the results:
    ensures { (notes : List (List ℕ)) → ReadsEachRow notes answers.now → ReadsOwnFactorRows notes result }
{
    let mut rows = Vec::new(alloc);
    for answer in answers {
        let row = own_factor_row(*answer, rows.len())?;
        rows.push(row)?;
    }
    Ok(rows)
}

// A row that comes after `before` others.
fn own_factor_row(answer: Result<FactorRow, Refusal>, before: usize) -> Result<FactorRow, Refusal>
    // Of any note whose reading this is the result:
    ensures { (note : List ℕ) → ReadsFactorRow note answer → ReadsFactorRowAfter before note result }
{
    let row = answer?;
    if before >= MAX_ROWS {
        return Err(Refusal::TooManyFactorRows);
    }
    Ok(row)
}
