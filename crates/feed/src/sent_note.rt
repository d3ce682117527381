//! Reading a note that is sent into a sheet.
ghost use Rattle.std.specs.Prelude.{◌≡◌, length};
ghost use Rattle.feed.specs.Frames.{IsFramed, first_note};
ghost use Rattle.feed.specs.Kinds.{IsOfKind, note_length};
ghost use Rattle.feed.specs.Readings.{Reads};
ghost use Rattle.feed.specs.SentNotes.{IsSent, SaysSentNote, content_kind, sent_note_of};

use crate::content::{Content, checked_length, read};
use crate::entry::{SentEntry, SentQuantity, entry_head};
use crate::frame::FIELDS;
use crate::kind::Kind;
use crate::little_endian::number_at;
use refusals::Refusal;

// The offsets of the fields that every such note has.
const NUMBER: usize = FIELDS;

const REVISION: usize = NUMBER + 4;

// The offset of the fields of an entry, which follow.
pub(crate) const CONTENT: usize = REVISION + 4;

/// A note that is sent into a sheet: an entry or a withdrawal, under a number.
#[derive(Clone, Copy, Debug, PartialEq, Eq)]
pub struct SentNote {
    /// The number under which an entry is amended or withdrawn later, any number.
    pub number: u32,
    /// The revision, any number. Of two notes under one number the one with the higher revision counts.
    pub revision: u32,
    /// What is sent under the number.
    pub content: SentContent,
}

/// What is sent under a number.
#[derive(Clone, Copy, Debug, PartialEq, Eq)]
pub enum SentContent {
    /// An entry, or an amendment, which is the whole entry again.
    Entry(SentEntry),
    /// Takes back what was sent under the number.
    Withdrawal,
}

impl SentNote {
    /// Reads an entry or a withdrawal from the first note of the bytes. What comes after that note plays no part.
    /// Refused by `Unframed` (1), `UnexpectedKind` (2) or `WrongLength` (3).
    pub fn read(bytes: &[u8]) -> Result<SentNote, Refusal>
        ensures value { Reads IsSent SaysSentNote bytes.now result }
        ensures alone { IsFramed bytes.now → Reads IsSent SaysSentNote (first_note bytes.now) result }
    {
        read(bytes)
    }

    /// The kind of note that holds such content.
    pub fn kind(self) -> Kind
        ensures { result ≡ content_kind self.content }
    {
        match self.content {
            SentContent::Entry(entry) => entry.quantity.kind(),
            SentContent::Withdrawal => Kind::Withdrawal,
        }
    }

    fn from_note(kind: Kind, note: &[u8]) -> SentNote
        requires kind { IsOfKind kind note.now }
        requires sent { IsSent kind }
        requires sized { length note.now ≡ note_length kind }
        ensures { result ≡ sent_note_of note.now }
    {
        let content = match SentQuantity::of_note(kind, note) {
            Some(quantity) => SentContent::Entry(SentEntry {
                head: entry_head(note),
                quantity,
            }),
            None => SentContent::Withdrawal,
        };
        SentNote {
            number: number_at(note, NUMBER),
            revision: number_at(note, REVISION),
            content,
        }
    }
}

impl Content for SentNote {
    ghost wanted = { IsSent };

    ghost says = { SaysSentNote };

    fn of_note(kind: Kind, note: &[u8]) -> Result<SentNote, Refusal> {
        match kind {
            Kind::Building | Kind::Factor => Err(Refusal::UnexpectedKind),
            Kind::Counted | Kind::Measured | Kind::Withdrawal => {
                Ok(SentNote::from_note(kind, checked_length(kind, note)?))
            }
        }
    }
}
