//! The cut by type of emission.
ghost use Rattle.std.specs.Prelude.{◌≡◌, refl};
ghost use Rattle.booking.specs.Rows.{row_number};
ghost use Rattle.pages.specs.Cuts.{by_type};
ghost use Rattle.pages.specs.Types.{emission_number, emission_type};
ghost use Rattle.pages.specs.CutLaws.{by_type_lawful};

use crate::cut::Cut;
use booking::Row;

/// A type of emission, as the accounting draft divides them. Its number is that of its heading.
#[derive(Clone, Copy, Debug, PartialEq, Eq)]
pub enum EmissionType {
    /// Direct emissions: what is burnt in the building, and refrigerant that leaks (rows 11, 14 and 21).
    Direct = 1,
    /// Indirect emissions: energy bought and water, less the renewables in use (rows 12, 13, 15 and 19).
    Indirect = 2,
    /// Embodied emissions: what is built in, maintained and taken down (rows 1 to 10, 16 to 18 and 22).
    Embodied = 3,
    /// The sink: what planting takes up (row 20).
    Sink = 4,
}

/// The cut by type. Headings 1 to 4 are direct, indirect, embodied and the sink.
#[derive(Clone, Copy, Debug, PartialEq, Eq)]
pub struct ByType;

impl Cut for ByType {
    const HEADINGS: usize = 4;

    ghost HEADINGS = { 4 };

    ghost assignment = { λ _. by_type };

    ghost size_is_headings = { λ _. refl };

    ghost lawful = { λ _. by_type_lawful };

    fn heading(&self, row: Row) -> usize {
        emission_type(row) as usize
    }
}

fn emission_type(row: Row) -> EmissionType
    ensures { emission_number result ≡ emission_type (row_number row) }
{
    match row {
        Row::EquipmentEnergyBurnt | Row::UserEnergyBurnt | Row::Refrigerant => EmissionType::Direct,
        Row::EquipmentEnergyBought | Row::Water | Row::UserEnergyBought | Row::Renewables => {
            EmissionType::Indirect
        }
        Row::Sink => EmissionType::Sink,
        _ => EmissionType::Embodied,
    }
}
