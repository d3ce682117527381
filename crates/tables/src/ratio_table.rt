//! The ratios of each grade, to compare with the zero-carbon draft's.
use crate::names::{GRADES, REGIONS};
use crate::search::{REFERENCE, largest_share};
use crate::site::square_metre;
use domain::{Building, BuildingType};
use grades::Grade;
use std::io;

// Any sun class, since a ratio depends on the region alone.
const SUN: u16 = 1;

// A row for each region, and a cell for each grade. The building is a school, the type with the lowest limits.
pub(crate) fn print_ratios(rt: &impl Print) -> io::Result<()> {
    println!(rt; "\nratios: per cent below the reference, by region")?;
    print!(rt; "{:24}", "")?;
    for (_, name) in GRADES {
        print!(rt; "{name:>18}")?;
    }
    println!(rt; "")?;
    for (region, region_name) in REGIONS {
        print!(rt; "{region_name:<24}")?;
        let school = square_metre(region, SUN, BuildingType::School, REFERENCE);
        for (grade, _) in GRADES {
            print_ratio(rt, grade, &school)?;
        }
        println!(rt; "")?;
    }
    Ok(())
}

fn print_ratio(rt: &impl Print, grade: Grade, building: &Building) -> io::Result<()> {
    match largest_share(grade, building) {
        Some(share) => print!(rt; "{share:>18}"),
        None => print!(rt; "{:>18}", "-"),
    }
}
