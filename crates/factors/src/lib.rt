//! Sources of factors: the trait, and the sources that a sheet is used with.
#![tactic(auto)]

mod defaults;
mod lack;
mod list;
mod project;
mod recycled;
mod source;
mod table;

pub use defaults::Defaults;
pub use lack::Lack;
pub use list::ProjectList;
pub use project::ProjectFactors;
pub use recycled::Recycled;
pub use source::FactorSource;
pub use table::BuiltIn;
