//! The rows: what an entry can be for.
//! Their conversions are written out, since an `impl` that a macro writes can have no contract.
ghost use Rattle.std.specs.Prelude.{◌≡◌, ◌-◌};
ghost use Rattle.booking.specs.Rows.{IsRowNumber, row_number};
ghost use Rattle.refusals.specs.declared.refusal.Refusal.TheVariants.{UnknownRow};
ghost use Rattle.refusals.specs.Refusals.{Decodes};

use refusals::Refusal;

/// What an entry is for. The rows and their numbers, 1 to 22, are drawn up after the accounting draft.
#[derive(Clone, Copy, Debug, PartialEq, Eq)]
pub enum Row {
    /// Production of material and equipment.
    Production = 1,
    /// Haulage to the site.
    Haulage = 2,
    /// Energy of machines on site.
    MachineEnergy = 3,
    /// Water of machines on site.
    MachineWater = 4,
    /// Energy of the site office.
    OfficeEnergy = 5,
    /// Water of the site office.
    OfficeWater = 6,
    /// Temporary material.
    TemporaryMaterial = 7,
    /// Haulage of rubbish.
    RubbishHaulage = 8,
    /// Renewables on site. Subtracted.
    SiteRenewables = 9,
    /// Other gases that escape on site. Apart from `Refrigerant`, so that no gas is counted in both stages.
    SiteGases = 10,
    /// Energy of equipment, burnt in the building.
    EquipmentEnergyBurnt = 11,
    /// Energy of equipment, bought.
    EquipmentEnergyBought = 12,
    /// Water in use.
    Water = 13,
    /// Energy of users, burnt in the building.
    UserEnergyBurnt = 14,
    /// Energy of users, bought.
    UserEnergyBought = 15,
    /// Upkeep.
    Upkeep = 16,
    /// Renewal of parts that have served their years.
    Renewal = 17,
    /// Refurbishment.
    Refurbishment = 18,
    /// Renewables in use. Subtracted.
    Renewables = 19,
    /// What planting takes up. Subtracted.
    Sink = 20,
    /// Refrigerant that escapes in use.
    Refrigerant = 21,
    /// Demolition.
    Demolition = 22,
}

impl Row {
    /// All rows, in the order of their numbers.
    pub const ALL: [Row; 22] = [
        Row::Production,
        Row::Haulage,
        Row::MachineEnergy,
        Row::MachineWater,
        Row::OfficeEnergy,
        Row::OfficeWater,
        Row::TemporaryMaterial,
        Row::RubbishHaulage,
        Row::SiteRenewables,
        Row::SiteGases,
        Row::EquipmentEnergyBurnt,
        Row::EquipmentEnergyBought,
        Row::Water,
        Row::UserEnergyBurnt,
        Row::UserEnergyBought,
        Row::Upkeep,
        Row::Renewal,
        Row::Refurbishment,
        Row::Renewables,
        Row::Sink,
        Row::Refrigerant,
        Row::Demolition,
    ];

    /// The index of the row in `ALL`.
    pub fn index(self) -> usize
        ensures { result ≡ row_number self - 1 }
    {
        usize::from(u16::from(self)) - 1
    }
}

/// Refused by `UnknownRow` (5) if no row has the number.
impl TryFrom<u16> for Row {
    type Error = Refusal;

    ghost try_from_gives = { Decodes IsRowNumber UnknownRow row_number };

    fn try_from(n: u16) -> Result<Row, Refusal> {
        match n {
            1 => Ok(Row::Production),
            2 => Ok(Row::Haulage),
            3 => Ok(Row::MachineEnergy),
            4 => Ok(Row::MachineWater),
            5 => Ok(Row::OfficeEnergy),
            6 => Ok(Row::OfficeWater),
            7 => Ok(Row::TemporaryMaterial),
            8 => Ok(Row::RubbishHaulage),
            9 => Ok(Row::SiteRenewables),
            10 => Ok(Row::SiteGases),
            11 => Ok(Row::EquipmentEnergyBurnt),
            12 => Ok(Row::EquipmentEnergyBought),
            13 => Ok(Row::Water),
            14 => Ok(Row::UserEnergyBurnt),
            15 => Ok(Row::UserEnergyBought),
            16 => Ok(Row::Upkeep),
            17 => Ok(Row::Renewal),
            18 => Ok(Row::Refurbishment),
            19 => Ok(Row::Renewables),
            20 => Ok(Row::Sink),
            21 => Ok(Row::Refrigerant),
            22 => Ok(Row::Demolition),
            _ => Err(Refusal::UnknownRow),
        }
    }
}

impl From<Row> for u16 {
    ghost from_gives = { λ row n. n ≡ row_number row };

    fn from(row: Row) -> u16 {
        row as u16
    }
}
