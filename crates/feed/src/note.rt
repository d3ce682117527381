//! Reading a note of any kind.
ghost use Rattle.feed.specs.Frames.{IsFramed, first_note};
ghost use Rattle.feed.specs.Notes.{IsAnyKind, Says};
ghost use Rattle.feed.specs.Readings.{Reads};

use crate::content::{Content, read};
use crate::kind::Kind;
use crate::sent_note::SentNote;
use domain::{Building, FactorRow};
use refusals::Refusal;

/// A note of any kind.
#[derive(Clone, Copy, Debug, PartialEq, Eq)]
pub enum Note {
    /// A building.
    Building(Building),
    /// A row of the project's own factors. One that was read has its numbers in range.
    Factor(FactorRow),
    /// An entry or a withdrawal.
    Sent(SentNote),
}

impl Note {
    /// Reads the first note of the bytes. What comes after that note plays no part. Refused by `Unframed` (1),
    /// `UnexpectedKind` (2), `WrongLength` (3) or `OutOfRange` (4).
    pub fn read(bytes: &[u8]) -> Result<Note, Refusal>
        ensures value { Reads IsAnyKind Says bytes.now result }
        ensures alone { IsFramed bytes.now → Reads IsAnyKind Says (first_note bytes.now) result }
    {
        read(bytes)
    }
}

impl Content for Note {
    ghost wanted = { IsAnyKind };

    ghost says = { Says };

    fn of_note(kind: Kind, note: &[u8]) -> Result<Note, Refusal> {
        match kind {
            Kind::Building => Building::of_note(kind, note).map(Note::Building),
            Kind::Factor => FactorRow::of_note(kind, note).map(Note::Factor),
            Kind::Counted | Kind::Measured | Kind::Withdrawal => {
                SentNote::of_note(kind, note).map(Note::Sent)
            }
        }
    }
}
