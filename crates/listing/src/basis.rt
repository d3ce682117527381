//! The basis on which a feed's entries are booked: the building and the factors that it opens with.
ghost use Rattle.std.specs.Prelude.{IfOk};
ghost use Rattle.listing.specs.Bases.{HasBasis, KeepsFitAnswers};

use domain::{Building, FactorRow};
use feed::{Opening, OpeningError};
use refusals::Refusal;
use std::alloc::{AllocError, Global};

/// What a feed opens with: its building, and the factor rows straight after it. A feed with no building has no rows.
#[derive(Debug, Drop)]
pub struct BookingBasis {
    /// The building, if it is the first note of the feed and can be read.
    pub building: Option<Building>,
    /// The rows in their order, without those that are refused.
    pub rows: Vec<FactorRow>,
}

impl BookingBasis {
    /// Reads the basis of a feed. It refuses nothing, and fails only where memory does.
    pub fn read(alloc: Global, feed: &[u8]) -> Result<BookingBasis, AllocError>
        ensures { IfOk result (λ basis. HasBasis feed.now basis.building basis.rows.items) }
    {
        match Opening::read(alloc, feed) {
            Ok(opening) => Ok(BookingBasis {
                building: Some(opening.building),
                rows: fit_rows(alloc, opening.rows.as_slice())?,
            }),
            Err(OpeningError::Refused(_)) => Ok(BookingBasis {
                building: None,
                rows: Vec::new(alloc),
            }),
            Err(OpeningError::OutOfMemory(error)) => Err(error),
        }
    }
}

// The rows that can be read; refused ones are passed over.
fn fit_rows(
    alloc: Global,
    answers: &[Result<FactorRow, Refusal>],
) -> Result<Vec<FactorRow>, AllocError>
    ensures { IfOk result (λ rows. KeepsFitAnswers answers.now rows.items) }
{
    let mut rows = Vec::new(alloc);
    for answer in answers {
        let Ok(row) = answer else { continue };
        rows.push(*row)?;
    }
    Ok(rows)
}
