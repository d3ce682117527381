//! Tests of the answers to sends, one after the other.
use crate::notes::{entry, house, list, withdrawal};
use pages::{ByStage, Figure};
use refusals::Refusal;
use sheet::Sheet;

#[test]
fn a_withdrawal_ahead_of_its_amendment(rt: HostRuntime) -> Result<(), Refusal> {
    let mut sheet = Sheet::open(house()?, list());
    assert_eq!(rt; sheet.send(&withdrawal(1, 2)), Ok(()));
    assert_eq!(rt;
        sheet.send(&entry(1, 1, 1, 1_000)),
        Err(Refusal::Superseded)
    );
    assert_eq!(rt;
        sheet.send(&entry(1, 2, 1, 1_000)),
        Err(Refusal::Contradicted)
    );
    assert_eq!(rt; sheet.send(&withdrawal(1, 2)), Err(Refusal::Superseded));
    assert_eq!(rt; sheet.send(&entry(1, 3, 1, 5_000)), Ok(()));
    assert_eq!(rt;
        sheet.send(&entry(1, 3, 1, 5_000)),
        Err(Refusal::Superseded)
    );
    assert_eq!(rt;
        sheet.send(&entry(1, 3, 1, 5_001)),
        Err(Refusal::Contradicted)
    );
    let mut figures = [Figure {
        kilograms: 9,
        count: 9,
    }; 4];
    let total = Figure {
        kilograms: 2,
        count: 1,
    };
    assert_eq!(rt; sheet.page(&ByStage, &mut figures), Ok(total));
    Ok(())
}

// A line that differs from the held one in its row, its span or its code alone contradicts it, though its grams agree.
#[test]
fn lines_that_are_not_equal(rt: HostRuntime) -> Result<(), Refusal> {
    let mut sheet = Sheet::open(house()?, list());
    let mut held = entry(1, 0, 21, 1_000);
    held[14] = 10;
    assert_eq!(rt; sheet.send(&held), Ok(()));
    assert_eq!(rt; sheet.send(&held), Err(Refusal::Superseded));
    let mut spans = held;
    spans[14] = 20;
    assert_eq!(rt; sheet.send(&spans), Err(Refusal::Contradicted));
    let mut codes = held;
    codes[16] = 8;
    assert_eq!(rt; sheet.send(&codes), Err(Refusal::Contradicted));
    assert_eq!(rt; sheet.send(&entry(2, 0, 3, 1_000)), Ok(()));
    assert_eq!(rt;
        sheet.send(&entry(2, 0, 4, 1_000)),
        Err(Refusal::Contradicted)
    );
    Ok(())
}

// 512 numbers, one more, and then an amendment of one of them.
#[test]
fn a_full_book(rt: HostRuntime) -> Result<(), Refusal> {
    let mut sheet = Sheet::open(house()?, list());
    for number in 0..512 {
        assert_eq!(rt; sheet.send(&entry(number, 0, 22, 1)), Ok(()));
    }
    assert_eq!(rt; sheet.send(&entry(512, 0, 22, 1)), Err(Refusal::BookFull));
    assert_eq!(rt; sheet.send(&withdrawal(512, 0)), Err(Refusal::BookFull));
    assert_eq!(rt; sheet.send(&entry(511, 1, 22, 2)), Ok(()));
    let mut figures = [Figure {
        kilograms: 0,
        count: 0,
    }; 4];
    let total = Figure {
        kilograms: 0,
        count: 512,
    };
    assert_eq!(rt; sheet.page(&ByStage, &mut figures), Ok(total));
    Ok(())
}

// Numbers with the same remainder when divided by 4,096, so that the search for each begins at the place of the first,
// and one, 6, with another.
#[test]
fn numbers_of_one_remainder(rt: HostRuntime) -> Result<(), Refusal> {
    let mut sheet = Sheet::open(house()?, list());
    for number in [5, 4_101, 6, 8_197] {
        assert_eq!(rt; sheet.send(&entry(number, 0, 22, 1_000)), Ok(()));
    }
    assert_eq!(rt; sheet.send(&entry(4_101, 1, 1, 5_000)), Ok(()));
    assert_eq!(rt;
        sheet.send(&entry(8_197, 0, 22, 1_000)),
        Err(Refusal::Superseded)
    );
    assert_eq!(rt; sheet.send(&withdrawal(5, 1)), Ok(()));
    assert_eq!(rt; sheet.send(&entry(12_293, 0, 1, 3_000)), Ok(()));
    assert_eq!(rt;
        sheet.send(&entry(5, 0, 1, 1_000)),
        Err(Refusal::Superseded)
    );
    let mut figures = [Figure {
        kilograms: 0,
        count: 0,
    }; 4];
    let total = Figure {
        kilograms: 4,
        count: 4,
    };
    assert_eq!(rt; sheet.page(&ByStage, &mut figures), Ok(total));
    Ok(())
}
