//! Why a call is refused: one list of reasons and numbers for all crates.
#![tactic(auto)]

mod lack_codes;
mod refusal;

pub use lack_codes::LackCodes;
pub use refusal::Refusal;
