//! Tests of pages by each cut, of 400 grams in each of the rows 1, 3 and 22: the running sums are 400, 800 and 1,200.
use crate::notes::{entry, house, list};
use booking::Row;
use grades::Grade;
use pages::{ByRow, ByStage, ByType, Cut, Figure};
use refusals::Refusal;
use sheet::page_and_grade;

fn figure(kilograms: i64, count: u16) -> Figure {
    Figure { kilograms, count }
}

// The total and the grade of those three entries. The figures are written into the places.
fn page_of_three_entries<C: Cut>(
    cut: &C,
    figures: &mut [Figure],
) -> Result<(Result<Figure, Refusal>, Grade), Refusal> {
    let first = entry(1, 0, 1, 1_000);
    let second = entry(2, 0, 3, 1_000);
    let third = entry(3, 0, 22, 1_000);
    let sends: [&[u8]; 3] = [&first, &second, &third];
    Ok(page_and_grade(house()?, list(), &sends, cut, figures))
}

#[test]
fn by_stage(rt: HostRuntime) -> Result<(), Refusal> {
    let mut figures = [figure(-9, 9); 5];
    let (total, grade) = page_of_three_entries(&ByStage, &mut figures)?;
    assert_eq!(rt; total, Ok(figure(1, 3)));
    assert_eq!(rt; grade, Grade::NearZero);
    let expected = [
        figure(0, 1),
        figure(1, 1),
        figure(0, 0),
        figure(0, 1),
        figure(-9, 9),
    ];
    assert_eq!(rt; figures, expected);
    Ok(())
}

#[test]
fn by_type(rt: HostRuntime) -> Result<(), Refusal> {
    let mut figures = [figure(-9, 9); 5];
    let (total, _) = page_of_three_entries(&ByType, &mut figures)?;
    assert_eq!(rt; total, Ok(figure(1, 3)));
    let expected = [
        figure(0, 0),
        figure(0, 0),
        figure(1, 3),
        figure(0, 0),
        figure(-9, 9),
    ];
    assert_eq!(rt; figures, expected);
    Ok(())
}

#[test]
fn by_row(rt: HostRuntime) -> Result<(), Refusal> {
    let mut figures = [figure(-9, 9); 23];
    let (total, _) = page_of_three_entries(&ByRow, &mut figures)?;
    assert_eq!(rt; total, Ok(figure(1, 3)));
    let mut expected = [figure(0, 0); 23];
    expected[0] = figure(0, 1);
    expected[2] = figure(1, 1);
    expected[21] = figure(0, 1);
    expected[22] = figure(-9, 9);
    assert_eq!(rt; figures, expected);
    Ok(())
}

// The heading of each row, by stage and by type.
#[test]
fn every_row(rt: HostRuntime) {
    let stages = [
        1, 1, 2, 2, 2, 2, 2, 2, 2, 2, 3, 3, 3, 3, 3, 3, 3, 3, 3, 3, 3, 4,
    ];
    let types = [
        3, 3, 3, 3, 3, 3, 3, 3, 3, 3, 1, 2, 2, 1, 2, 3, 3, 3, 2, 4, 1, 3,
    ];
    assert_eq!(rt; Row::ALL.map(|row| ByStage.heading(row)), stages);
    assert_eq!(rt; Row::ALL.map(|row| ByType.heading(row)), types);
}

#[test]
fn too_few_places(rt: HostRuntime) -> Result<(), Refusal> {
    let mut figures = [figure(-9, 9); 3];
    let (total, _) = page_of_three_entries(&ByStage, &mut figures)?;
    assert_eq!(rt; total, Err(Refusal::TooFewPlaces));
    assert_eq!(rt; figures, [figure(-9, 9); 3]);
    Ok(())
}
