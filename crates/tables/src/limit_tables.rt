//! The limits of a grade, to compare with the zero-carbon draft's tables.
use crate::given::is_given;
use crate::names::{OTHERS, REGIONS};
use crate::search::{LIMIT_GRAMS, largest_limit};
use crate::site::{NO_REFERENCE, square_metre};
use domain::{Building, BuildingType};
use grades::Grade;
use std::io;

// A row for each region, and a cell for each sun class.
pub(crate) fn print_homes(rt: &impl Print, grade: Grade, name: &str) -> io::Result<()> {
    println!(rt; "\n{name} homes: kilograms per square metre and year, by region and sun class")?;
    print!(rt; "{:24}", "")?;
    for sun in 1..=4 {
        print!(rt; "{:>12}{sun}", "sun ")?;
    }
    println!(rt; "")?;
    for (region, region_name) in REGIONS {
        print!(rt; "{region_name:<24}")?;
        for sun in 1..=4 {
            let home = square_metre(region, sun, BuildingType::Residential, NO_REFERENCE);
            print_limit(rt, grade, &home)?;
        }
        println!(rt; "")?;
    }
    Ok(())
}

// A row for each region and sun class, and a cell for each type.
pub(crate) fn print_others(rt: &impl Print, grade: Grade, name: &str) -> io::Result<()> {
    println!(rt;
        "\n{name} buildings of other types: kilograms per square metre and year, by region and sun class"
    )?;
    print!(rt; "{:29}", "")?;
    for (_, type_name) in OTHERS {
        print!(rt; "{type_name:>13}")?;
    }
    println!(rt; "")?;
    for (region, region_name) in REGIONS {
        for sun in 1..=4 {
            print!(rt; "{region_name:<24}sun {sun}")?;
            for (building_type, _) in OTHERS {
                let building = square_metre(region, sun, building_type, NO_REFERENCE);
                print_limit(rt, grade, &building)?;
            }
            println!(rt; "")?;
        }
    }
    Ok(())
}

// A limit in kilograms, or a dash where there is none. A `!` behind it would mean that the grade is given one gram
// beyond it too.
fn print_limit(rt: &impl Print, grade: Grade, building: &Building) -> io::Result<()> {
    let Some(limit) = largest_limit(grade, building) else {
        return print!(rt; "{:>13}", "-");
    };
    let whole = limit / 10;
    let tenth = limit % 10;
    let beyond = is_given(grade, building, LIMIT_GRAMS * u32::from(limit) + 1);
    let mark = if beyond { "!" } else { "" };
    print!(rt; "{whole:>11}.{tenth}{mark}")
}
