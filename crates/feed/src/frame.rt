//! The frame of a note: its length and its kind, which come before its fields.
ghost use Rattle.std.specs.Prelude.{◌≡◌, ◌≤◌, length};
ghost use Rattle.feed.specs.Frames.{first_note, note_kind, IsNoteHead};
ghost use Rattle.feed.specs.Readings.{framing_conditions};
ghost use Rattle.refusals.specs.Refusals.{GivesOrRefuses};

use crate::little_endian::number_at;
use refusals::Refusal;

// The offsets of the length and the kind, two bytes each, and of the first field.
const LENGTH: usize = 0;

const KIND: usize = 2;

pub(crate) const FIELDS: usize = 4;

/// Returns the first note of the bytes, as a slice of them. Refused by `Unframed` (1).
pub fn first_note(bytes: &[u8]) -> Result<&[u8], Refusal>
    ensures { GivesOrRefuses (framing_conditions bytes.now) (λ note. note.now ≡ first_note bytes.now) result }
{
    if bytes.len() < FIELDS {
        return Err(Refusal::Unframed);
    }
    let len = usize::from(number_at::<2, u16>(bytes, LENGTH));
    if len < FIELDS || len > bytes.len() {
        return Err(Refusal::Unframed);
    }
    Ok(&bytes[0..len])
}

pub(crate) fn kind_field(note: &[u8]) -> u16
    requires { 4 ≤ length note.now }
    ensures { result ≡ note_kind note.now }
{
    number_at(note, KIND)
}

/// The length and the kind of a note.
#[derive(Clone, Copy, Debug, PartialEq, Eq)]
pub struct NoteHead {
    /// The length of the whole note in bytes, at least 4.
    pub length: usize,
    /// The number of its kind. It may be of no kind that exists.
    pub kind: u16,
}

impl NoteHead {
    /// Reads the head of the first note of the bytes. Refused by `Unframed` (1).
    pub fn read(bytes: &[u8]) -> Result<NoteHead, Refusal>
        ensures { GivesOrRefuses (framing_conditions bytes.now) (IsNoteHead (first_note bytes.now)) result }
    {
        let note = first_note(bytes)?;
        Ok(NoteHead {
            length: note.len(),
            kind: kind_field(note),
        })
    }
}
