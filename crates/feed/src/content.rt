//! Reading the first note of the given bytes, in one way for all kinds.
ghost use Rattle.std.specs.Prelude.{◌≡◌, List, ℕ, length, Some};
ghost use Rattle.feed.specs.declared.kind.Kind.{Kind};
ghost use Rattle.feed.specs.Frames.{IsFramed, first_note};
ghost use Rattle.feed.specs.Kinds.{IsOfKind, note_length};
ghost use Rattle.feed.specs.Readings.{Reads, form_conditions};
ghost use Rattle.refusals.specs.declared.refusal.Refusal.TheVariants.{WrongLength};
ghost use Rattle.refusals.specs.Refusals.{GivesOrRefuses, GivesOrRefusesBy};

use crate::frame::{first_note, kind_field};
use crate::kind::Kind;
use refusals::Refusal;

// A value that notes of some kinds are read as.
pub(crate) trait Content: Sized {
    // The kinds that are read.
    ghost wanted: { Kind → Type 0 };

    // The value that a note gives.
    ghost says: { List ℕ → Self → Type 0 };

    // The value of a note, if its kind is one that is read, its length is that of its kind, and its fields are in
    // range.
    fn of_note(kind: Kind, note: &[u8]) -> Result<Self, Refusal>
        requires { IsOfKind kind note.now }
        ensures { GivesOrRefuses (form_conditions wanted (Some kind) note.now) (says note.now) result };
}

// Reads the first note of the bytes. The public calls `read_building`, `read_factor_row`, `Note::read` and
// `SentNote::read` are all this one.
#[tactic(auto, using(crate::proofs::Reading::headed, crate::proofs::Reading::reads_alone))]
pub(crate) fn read<T: Content>(bytes: &[u8]) -> Result<T, Refusal>
    ensures value { Reads T.wanted T.says bytes.now result }
    ensures alone { IsFramed bytes.now → Reads T.wanted T.says (first_note bytes.now) result }
{
    let note = first_note(bytes)?;
    let kind = Kind::try_from(kind_field(note))?;
    T::of_note(kind, note)
}

// The note itself, if it has the length of its kind.
pub(crate) fn checked_length(kind: Kind, note: &[u8]) -> Result<&[u8], Refusal>
    ensures { GivesOrRefusesBy (length note.now ≡ note_length kind) WrongLength (λ bytes. bytes.now ≡ note.now) result }
{
    if note.len() == kind.length() {
        Ok(note)
    } else {
        Err(Refusal::WrongLength)
    }
}
