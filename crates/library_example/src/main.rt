//! How your own program uses the library: it opens the sheet of a school, sends five notes, one of which is refused,
//! and prints two pages and the grade.
#![tactic(auto)]

mod notes;

use crate::notes::entry;
use booking::Row;
use domain::{Building, BuildingNumbers, FactorNumbers, FactorRow};
use factors::ProjectFactors;
use pages::{ByRow, ByType, Cut, Figure};
use sheet::Sheet;

// Cement: 700 kilograms a tonne, in tenths of a gram.
const FACTORS: [FactorRow; 1] = [FactorRow {
    code: 7,
    factor: FactorNumbers {
        amount: 7_000_000,
        unit: 1,
    },
}];

// The headings of a page by type.
const TYPES: [&str; ByType::HEADINGS] = ["direct", "indirect", "embodied", "sink"];

const UNWRITTEN: Figure = Figure {
    kilograms: 0,
    count: 0,
};

fn main(rt: HostRuntime) -> anyhow::Result<()> {
    // A school of 1,000 square metres over 50 years, in the second region and sun class.
    let school = Building::try_from(BuildingNumbers {
        area: 10_000,
        life: 50,
        region: 2,
        sun: 2,
        building_type: 8,
        reference: 0,
    })?;
    let mut sheet = Sheet::open(school, ProjectFactors { rows: &FACTORS });

    let notes = [
        // 2.5 tonnes of cement, and then its amendment, 3 tonnes
        entry(1, 0, Row::Production, 7, 2_500),
        entry(1, 1, Row::Production, 7, 3_000),
        // 30,000 kilowatt-hours a year, and 2,000 a year generated on site
        entry(2, 0, Row::EquipmentEnergyBought, 1, 30_000_000),
        entry(3, 0, Row::Renewables, 1, 2_000_000),
        // a tonne of recycled material: the new one, code 9, has no factor
        entry(4, 0, Row::Production, 1_000_009, 1_000),
    ];
    for (k, note) in notes.iter().enumerate() {
        if let Err(refusal) = sheet.send(note) {
            println!(rt; "note {} {refusal}", k + 1)?;
        }
    }

    let mut rows = [UNWRITTEN; ByRow::HEADINGS];
    let total = sheet.page(&ByRow, &mut rows)?;
    for (row, figure) in Row::ALL.iter().zip(rows.iter()) {
        if figure.count > 0 {
            println!(rt; "{row:?} {} {}", figure.kilograms, figure.count)?;
        }
    }

    let mut types = [UNWRITTEN; ByType::HEADINGS];
    sheet.page(&ByType, &mut types)?;
    for (name, figure) in TYPES.iter().zip(types.iter()) {
        println!(rt; "{name} {} {}", figure.kilograms, figure.count)?;
    }

    println!(rt; "total {} {}", total.kilograms, total.count)?;
    println!(rt; "grade {:?}", sheet.grade())?;
    Ok(())
}
