//! Prints what the calls return for each figure in the drafts' tables. The output that it is compared with was written
//! from the printed tables, and not from the code.
#![tactic(auto)]

mod factor_table;
mod given;
mod limit_tables;
mod names;
mod ratio_table;
mod search;
mod site;

use crate::factor_table::print_factors;
use crate::limit_tables::{print_homes, print_others};
use crate::names::GRADES;
use crate::ratio_table::print_ratios;
use std::io;

fn main(rt: HostRuntime) -> io::Result<()> {
    print_factors(&rt)?;
    for (grade, name) in GRADES {
        print_homes(&rt, grade, name)?;
    }
    for (grade, name) in GRADES {
        print_others(&rt, grade, name)?;
    }
    print_ratios(&rt)
}
