//! The totals of a sheet: the grams of each of its 22 rows, and the number of entries that they are of.
#![tactic(auto)]

mod totals;

pub use totals::{ROWS, Totals};
