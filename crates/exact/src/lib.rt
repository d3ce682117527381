//! Exact fractions, and the one rounding that every booked or printed figure goes through.
#![tactic(auto)]

mod binary_fraction;
mod fraction;
mod rounding;

pub use binary_fraction::BinaryFraction;
pub use fraction::Fraction;
