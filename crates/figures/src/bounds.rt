//! Figures at the ends of the ranges, worked out by hand and compared with what is booked.
use booking::{book, thousandths};
use domain::{Building, BuildingNumbers, Entry, EntryHead, FactorNumbers, FactorRow, Quantity};
use factors::{BuiltIn, FactorSource, ProjectList};
use refusals::Refusal;

// The grams of an entry in a building with the given life in years, or the number of its refusal.
fn outcome(years: u16, row: u16, quantity: Quantity, amount: u32) -> Result<u64, u8> {
    let numbers = BuildingNumbers {
        area: 10_000,
        life: years,
        region: 2,
        sun: 2,
        building_type: 1,
        reference: 0,
    };
    let building = Building::try_from(numbers).map_err(Refusal::number)?;
    let rows = [FactorRow {
        code: 7,
        factor: FactorNumbers { amount, unit: 1 },
    }];
    let head = EntryHead {
        row,
        span: 0,
        code: 7,
    };
    book(
        &building,
        &ProjectList { rows: &rows },
        &Entry { head, quantity },
    )
    .map(|line| line.grams)
    .map_err(Refusal::number)
}

#[test]
fn the_largest_measured_quantity(rt: HostRuntime) {
    let million = Quantity::Measured(1_000_000.0);
    let above = Quantity::Measured(1_000_000.000_000_000_1);
    assert_eq!(rt; thousandths(million), Ok(1_000_000_000));
    assert_eq!(rt; thousandths(above), Err(Refusal::InvalidQuantity));
    assert_eq!(rt; outcome(50, 1, million, 1), Ok(100_000));
    assert_eq!(rt; outcome(50, 1, above, 1), Err(7));
}

#[test]
fn the_largest_entry(rt: HostRuntime) {
    let most = Quantity::Counted(1_000_000_000);
    assert_eq!(rt;
        outcome(1, 11, most, 1_000_000_000),
        Ok(100_000_000_000_000)
    );
    assert_eq!(rt; outcome(2, 11, most, 1_000_000_000), Err(10));
}

// The neighbours of the built-in table's codes, and the largest code.
#[test]
fn no_other_code(rt: HostRuntime) {
    for code in [0, 2, 100, 116, 1_000_101, u32::MAX] {
        let amount = BuiltIn.factor(code).map(|factor| factor.amount);
        assert_eq!(rt; amount.ok(), None, "{code}");
    }
}
