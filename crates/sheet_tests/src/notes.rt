//! The tests' notes, and what they are booked by: a house of 1,000 square metres over 50 years, and a factor of 0.4
//! grams per thousandth of a kilogram, under two codes.
use domain::{Building, BuildingNumbers, FactorNumbers, FactorRow};
use factors::ProjectList;
use refusals::Refusal;

pub(crate) const FACTORS: [FactorRow; 2] = [
    FactorRow {
        code: 7,
        factor: FactorNumbers {
            amount: 4_000,
            unit: 4,
        },
    },
    FactorRow {
        code: 8,
        factor: FactorNumbers {
            amount: 4_000,
            unit: 4,
        },
    },
];

pub(crate) fn list() -> ProjectList<'static> {
    ProjectList { rows: &FACTORS }
}

pub(crate) fn house() -> Result<Building, Refusal> {
    Building::try_from(BuildingNumbers {
        area: 10_000,
        life: 50,
        region: 2,
        sun: 2,
        building_type: 1,
        reference: 0,
    })
}

// An entry of the given thousandths, of code 7.
pub(crate) fn entry(number: u16, revision: u8, row: u8, thousandths: u16) -> [u8; 28] {
    let [low, high] = number.to_le_bytes();
    let [less, more] = thousandths.to_le_bytes();
    [
        28, 0, 3, 0, low, high, 0, 0, revision, 0, 0, 0, row, 0, 0, 0, 7, 0, 0, 0, less, more, 0,
        0, 0, 0, 0, 0,
    ]
}

pub(crate) fn withdrawal(number: u16, revision: u8) -> [u8; 12] {
    let [low, high] = number.to_le_bytes();
    [12, 0, 5, 0, low, high, 0, 0, revision, 0, 0, 0]
}
