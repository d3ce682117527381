//! Reading a row of a project's own factors from its note.
ghost use Rattle.std.specs.Prelude.{◌≡◌, ◌≤◌, length, ◌↔◌, IsTrue};
ghost use Rattle.feed.specs.FactorFields.{factor_row_of_note};
ghost use Rattle.feed.specs.Frames.{IsFramed, first_note};
ghost use Rattle.feed.specs.Kinds.{note_length};
ghost use Rattle.feed.specs.declared.kind.Kind.TheVariants.{Factor as FactorNote};
ghost use Rattle.feed.specs.Readings.{ReadsFactorRow};
ghost use Rattle.feed.specs.FactorRows.{StartsWithFactorRow};

use crate::content::{Content, checked_length, read};
use crate::frame::NoteHead;
use crate::kind::Kind;
use crate::little_endian::number_at;
use domain::{Factor, FactorNumbers, FactorRow};
use refusals::Refusal;

/// Reads a factor row, whose numbers are in range, from the first note of the bytes. What comes after that note plays
/// no part. Refused by `Unframed` (1), `UnexpectedKind` (2), `WrongLength` (3) or `OutOfRange` (4).
pub fn read_factor_row(bytes: &[u8]) -> Result<FactorRow, Refusal>
    ensures value { ReadsFactorRow bytes.now result }
    ensures alone { IsFramed bytes.now → ReadsFactorRow (first_note bytes.now) result }
{
    read(bytes)
}

// Whether the bytes begin with a note of the kind of factor rows.
pub(crate) fn factor_row_is_next(bytes: &[u8]) -> bool
    ensures { IsTrue result ↔ StartsWithFactorRow bytes.now }
{
    NoteHead::read(bytes).is_ok_and(|head| head.kind == u16::from(Kind::Factor))
}

impl Content for FactorRow {
    ghost use Rattle.feed.specs.FactorFields.{IsFactorRow};

    ghost wanted = { λ kind. kind ≡ FactorNote };

    ghost says = { IsFactorRow };

    fn of_note(kind: Kind, note: &[u8]) -> Result<FactorRow, Refusal> {
        match kind {
            Kind::Factor => {
                let row = row(checked_length(kind, note)?);
                Factor::try_from(row.factor)?;
                Ok(row)
            }
            _ => Err(Refusal::UnexpectedKind),
        }
    }
}

fn row(note: &[u8]) -> FactorRow
    requires { note_length FactorNote ≤ length note.now }
    ensures { result ≡ factor_row_of_note note.now }
{
    FactorRow {
        code: number_at(note, 4),
        factor: FactorNumbers {
            amount: number_at(note, 8),
            unit: number_at(note, 12),
        },
    }
}
