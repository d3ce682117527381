//! Reading a building from its note.
ghost use Rattle.std.specs.Prelude.{◌≡◌, ◌≤◌, length};
ghost use Rattle.feed.specs.BuildingFields.{building_of_note};
ghost use Rattle.feed.specs.Frames.{IsFramed, first_note};
ghost use Rattle.feed.specs.Kinds.{note_length};
ghost use Rattle.feed.specs.declared.kind.Kind.TheVariants.{Building as BuildingNote};
ghost use Rattle.feed.specs.Readings.{ReadsBuilding};

use crate::content::{Content, checked_length, read};
use crate::kind::Kind;
use crate::little_endian::number_at;
use domain::{Building, BuildingNumbers};
use refusals::Refusal;

/// Reads a building from the first note of the bytes. What comes after that note plays no part. Refused by `Unframed`
/// (1), `UnexpectedKind` (2), `WrongLength` (3) or `OutOfRange` (4).
pub fn read_building(bytes: &[u8]) -> Result<Building, Refusal>
    ensures value { ReadsBuilding bytes.now result }
    ensures alone { IsFramed bytes.now → ReadsBuilding (first_note bytes.now) result }
{
    read(bytes)
}

impl Content for Building {
    ghost use Rattle.feed.specs.BuildingFields.{IsBuilding};

    ghost wanted = { λ kind. kind ≡ BuildingNote };

    ghost says = { IsBuilding };

    fn of_note(kind: Kind, note: &[u8]) -> Result<Building, Refusal> {
        match kind {
            Kind::Building => numbers(checked_length(kind, note)?).try_into(),
            _ => Err(Refusal::UnexpectedKind),
        }
    }
}

fn numbers(note: &[u8]) -> BuildingNumbers
    requires { note_length BuildingNote ≤ length note.now }
    ensures { result ≡ building_of_note note.now }
{
    BuildingNumbers {
        area: number_at(note, 4),
        life: number_at(note, 8),
        region: number_at(note, 10),
        sun: number_at(note, 12),
        building_type: number_at(note, 14),
        reference: number_at(note, 16),
    }
}
