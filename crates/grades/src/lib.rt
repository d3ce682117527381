//! Grades: how low in carbon a building is, by the energy that its use takes.
#![tactic(auto)]

mod award;
mod demands;
mod energy_emissions;
mod grading;
mod limits;
mod ratios;

pub use award::grade;
pub use grading::Grade;
