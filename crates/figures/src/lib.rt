//! Worked figures: those that are proved of the rules, and those that are compared by running the code.
#![tactic(auto)]

#[cfg(test)]
mod bounds;
mod worked;

pub use worked::worked_figures;
