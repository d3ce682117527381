//! What a sheet is about, apart from any format: buildings, factors, quantities and entries, with their numbers and
//! ranges. Conversions are written out one by one, since an `impl` that a macro writes can have no contract.
#![tactic(auto)]

mod building;
mod building_type;
mod entry;
mod factor;
mod factor_unit;
mod region;

pub use building::{Building, BuildingNumbers};
pub use building_type::BuildingType;
pub use entry::{Entry, EntryHead, Quantity};
pub use factor::{Factor, FactorNumbers, FactorRow};
pub use factor_unit::FactorUnit;
pub use region::Region;
