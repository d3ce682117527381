//! The opening of a feed: its building, and the factor rows that come straight after it.
ghost use Rattle.std.specs.Prelude.{◌≡◌};
ghost use Rattle.feed.specs.Openings.{IsOutOfMemory, ReadsOpening};
ghost use Rattle.feed.specs.declared.opening.OpeningError.TheVariants.{Refused};

use crate::building::read_building;
use crate::factor::read_factor_row;
use crate::reader::Reader;
use domain::{Building, FactorRow};
use refusals::Refusal;
use std::alloc::{AllocError, AllocFailed, Global};

/// What a feed opens with: a building, and the factor rows that come straight after it.
#[derive(Debug, Drop)]
pub struct Opening<'a> {
    /// The building, which is the first note.
    pub building: Building,
    /// The result of reading each factor row, in their order, refused ones included.
    pub rows: Vec<Result<FactorRow, Refusal>>,
    /// A reader that has passed the building and the rows.
    pub rest: Reader<'a>,
}

/// Why an opening could not be read.
#[derive(Debug, Drop)]
pub enum OpeningError {
    /// The building was refused.
    Refused(Refusal),
    /// There is no memory for the factor rows.
    OutOfMemory(AllocError),
}

impl From<Refusal> for OpeningError {
    ghost from_gives = { λ refusal e. e ≡ Refused refusal };

    fn from(refusal: Refusal) -> OpeningError {
        OpeningError::Refused(refusal)
    }
}

impl<T: Drop> From<AllocFailed<T>> for OpeningError {
    ghost from_gives = { λ _ e. IsOutOfMemory e };

    fn from(failed: AllocFailed<T>) -> OpeningError {
        OpeningError::OutOfMemory(failed.into())
    }
}

impl<'a> Opening<'a> {
    /// Reads the building from the first note of the feed, and then all factor rows up to the first note of another
    /// kind. The building is refused as `read_building` refuses it. A refused row is no error here: the caller decides
    /// what follows from it.
    pub fn read(alloc: Global, feed: &'a [u8]) -> Result<Opening<'a>, OpeningError>
        ensures { ReadsOpening feed.now result }
    {
        let building = read_building(feed)?;
        // The first note is the building.
        let mut rest = Reader::new(feed);
        rest.try_next()?;
        let mut rows = Vec::new(alloc);
        while let Some(note) = rest.next_factor_row() {
            rows.push(read_factor_row(note.bytes))?;
        }
        Ok(Opening {
            building,
            rows,
            rest,
        })
    }
}
