//! A place of the book, and what a note puts into one.
ghost use Rattle.std.specs.Prelude.{◌≡◌, IfErr, option_map, ◌↔◌, IsTrue};
ghost use Rattle.booking.specs.Booking.{line_numbers};
ghost use Rattle.sheet.specs.LineSums.{line_in_range};
ghost use Rattle.sheet.specs.RollNotes.{NamesLackOf, roll_note_of_sent, GivesPlace};
ghost use Rattle.sheet.specs.Places.{content_line, place_numbers};
ghost use Rattle.sheet.specs.Placing.{EqualLines, MayReplace};

use crate::record::LineRecord;
use booking::BookedLine;
use domain::Building;
use factors::FactorSource;
use feed::{SentContent, SentNote};
use refusals::Refusal;

#[derive(Clone, Copy, Debug, PartialEq, Eq)]
pub(crate) enum PlaceContent {
    Withdrawn,
    Entry(LineRecord),
}

// What the book holds of a number: the revision that was accepted last, and its content.
#[derive(Clone, Copy, Debug, PartialEq, Eq)]
pub(crate) struct Place {
    pub number: u32,
    pub revision: u32,
    pub content: PlaceContent,
}

// A place that is not in use.
pub(crate) const EMPTY: Place = Place {
    number: 0,
    revision: 0,
    content: PlaceContent::Withdrawn,
};

impl PlaceContent {
    // Whether both are withdrawn, or both are entries of the same row, span, code and thousandths. Grams follow from
    // these.
    fn has_equal_line(&self, other: &PlaceContent) -> bool
        ensures { IsTrue result ↔ EqualLines (content_line self.now) (content_line other.now) }
    {
        match (self, other) {
            (PlaceContent::Withdrawn, PlaceContent::Withdrawn) => true,
            (PlaceContent::Entry(a), PlaceContent::Entry(b)) => {
                a.row == b.row
                    && a.span == b.span
                    && a.code == b.code
                    && a.thousandths == b.thousandths
            }
            _ => false,
        }
    }
}

impl Place {
    // The place that a note takes, in a building and at the factors of a source. Refused as its booking is, by 5 to 10.
    pub(crate) fn of<S: FactorSource>(
        sent: &SentNote,
        building: &Building,
        source: &S,
    ) -> Result<Place, Refusal>
        ensures value { GivesPlace building.now.life (S.factor_map source.now) (roll_note_of_sent sent.now) result }
        ensures named { IfErr result (NamesLackOf building.now.life (S.factor_map source.now)
            (roll_note_of_sent sent.now).entry) }
    {
        let content = match sent.content {
            SentContent::Entry(entry) => {
                let line = booking::book(building, source, &entry.into())?;
                PlaceContent::Entry(line.into())
            }
            SentContent::Withdrawal => PlaceContent::Withdrawn,
        };
        Ok(Place {
            number: sent.number,
            revision: sent.revision,
            content,
        })
    }

    // The line of the place, if it has one with grams in range.
    pub(crate) fn line(&self) -> Option<BookedLine>
        ensures { option_map line_numbers result ≡ line_in_range (content_line self.now.content) }
    {
        match self.content {
            PlaceContent::Withdrawn => None,
            PlaceContent::Entry(record) => record.line(),
        }
    }

    // Checks that it may replace an older place of its number. Refused by `Superseded` (21) or `Contradicted` (22).
    pub(crate) fn check_replaces(&self, old: &Place) -> Result<(), Refusal>
        ensures { MayReplace (place_numbers self.now) (place_numbers old.now) result }
    {
        if self.revision < old.revision {
            return Err(Refusal::Superseded);
        }
        if self.revision > old.revision {
            return Ok(());
        }
        if self.content.has_equal_line(&old.content) {
            Err(Refusal::Superseded)
        } else {
            Err(Refusal::Contradicted)
        }
    }
}
