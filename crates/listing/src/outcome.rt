//! What an entry is booked at.
ghost use Rattle.std.specs.Prelude.{Some};
ghost use Rattle.listing.specs.ListingLines.{IsNoteOutcome, IsOutcome, entry_of, outcome_text};
ghost use Rattle.listing.specs.Bases.{basis_of};

use crate::basis::BookingBasis;
use booking::{BookedLine, book};
use domain::Entry;
use factors::ProjectFactors;
use feed::{Note, SentContent, SentNote};
use refusals::Refusal;
use std::fmt;

#[derive(Clone, Copy, Debug, PartialEq, Eq)]
pub(crate) enum Outcome {
    Booked(BookedLine),
    Refused(Refusal),
    // There is no building to book for.
    Unbooked,
}

impl BookingBasis {
    // What a note is booked at, if it is an entry.
    pub(crate) fn outcome(&self, note: &Note) -> Option<Outcome>
        ensures { IsNoteOutcome (basis_of self.now) (entry_of note.now) result }
    {
        match note {
            Note::Sent(
                SentNote {
                    content: SentContent::Entry(entry),
                    ..
                },
            ) => Some(self.book(&(*entry).into())),
            _ => None,
        }
    }

    fn book(&self, entry: &Entry) -> Outcome
        ensures { IsOutcome (basis_of self.now) entry.now result }
    {
        let Some(building) = &self.building else {
            return Outcome::Unbooked;
        };
        let source = ProjectFactors {
            rows: self.rows.as_slice(),
        };
        match book(building, &source, entry) {
            Ok(line) => Outcome::Booked(line),
            Err(refusal) => Outcome::Refused(refusal),
        }
    }
}

impl fmt::Display for Outcome {
    ghost output = { λ o. Some (outcome_text o) };

    fn fmt<W: fmt::Write>(&self, f: &mut fmt::Formatter<W>) -> fmt::Result {
        match self {
            Outcome::Booked(line) => write!(f, "{line}"),
            Outcome::Refused(refusal) => write!(f, "{refusal}"),
            Outcome::Unbooked => f.write_str("unbooked"),
        }
    }
}
