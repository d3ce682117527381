//! Booking: the emissions of an entry in whole grams, by the rule of its row, its quantity and its factor.
#![tactic(auto)]

mod booking;
mod emissions;
mod line;
mod measured;
mod method;
mod quantity;
mod row;
mod rules;

pub use booking::book;
pub use line::BookedLine;
pub use method::{CalculationMethod, Terms};
pub use quantity::thousandths;
pub use row::Row;
pub use rules::{Rule, Stage};
