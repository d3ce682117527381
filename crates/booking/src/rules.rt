//! The rule of each row: its stage, its sign and its calculation method.
ghost use Rattle.std.specs.Prelude.{◌≡◌};
ghost use Rattle.booking.specs.Rows.{row_number, stage_number, stage, is_subtracted, method};

use crate::method::CalculationMethod;
use crate::row::Row;

/// A stage of a building's life.
#[derive(Clone, Copy, Debug, PartialEq, Eq)]
pub enum Stage {
    /// Production of material and equipment, and haulage to the site.
    A = 1,
    /// Construction.
    B = 2,
    /// Use.
    C = 3,
    /// Demolition.
    D = 4,
}

/// The rule that the entries of a row follow.
#[derive(Clone, Copy, Debug, PartialEq, Eq)]
pub struct Rule {
    /// The stage that the row belongs to.
    pub stage: Stage,
    /// Whether its emissions are subtracted in a sum.
    pub subtracted: bool,
    /// How its emissions are calculated.
    pub method: CalculationMethod,
}

impl Row {
    /// The rule of the row. Its sign is that of the accounting draft.
    pub fn rule(self) -> Rule
        ensures stage { stage_number result.stage ≡ stage (row_number self) }
        ensures sign { result.subtracted ≡ is_subtracted (row_number self) }
        ensures method { result.method ≡ method (row_number self) }
    {
        let (stage, subtracted, method) = match self {
            Row::Production => (Stage::A, false, CalculationMethod::OneOff),
            Row::Haulage => (Stage::A, false, CalculationMethod::DistanceBased),
            Row::MachineEnergy => (Stage::B, false, CalculationMethod::OneOff),
            Row::MachineWater => (Stage::B, false, CalculationMethod::OneOff),
            Row::OfficeEnergy => (Stage::B, false, CalculationMethod::OneOff),
            Row::OfficeWater => (Stage::B, false, CalculationMethod::OneOff),
            Row::TemporaryMaterial => (Stage::B, false, CalculationMethod::OneOff),
            Row::RubbishHaulage => (Stage::B, false, CalculationMethod::DistanceBased),
            Row::SiteRenewables => (Stage::B, true, CalculationMethod::OneOff),
            Row::SiteGases => (Stage::B, false, CalculationMethod::OneOff),
            Row::EquipmentEnergyBurnt => (Stage::C, false, CalculationMethod::Annual),
            Row::EquipmentEnergyBought => (Stage::C, false, CalculationMethod::Annual),
            Row::Water => (Stage::C, false, CalculationMethod::Annual),
            Row::UserEnergyBurnt => (Stage::C, false, CalculationMethod::Annual),
            Row::UserEnergyBought => (Stage::C, false, CalculationMethod::Annual),
            Row::Upkeep => (Stage::C, false, CalculationMethod::Annual),
            Row::Renewal => (Stage::C, false, CalculationMethod::Replacement),
            Row::Refurbishment => (Stage::C, false, CalculationMethod::OneOff),
            Row::Renewables => (Stage::C, true, CalculationMethod::Annual),
            Row::Sink => (Stage::C, true, CalculationMethod::Annual),
            Row::Refrigerant => (Stage::C, false, CalculationMethod::Leakage),
            Row::Demolition => (Stage::D, false, CalculationMethod::OneOff),
        };
        Rule {
            stage,
            subtracted,
            method,
        }
    }
}
