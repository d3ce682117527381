//! Pages: the totals of a sheet under the headings of a cut, in whole kilograms that add up to the page's total.
#![tactic(auto)]

mod by_row;
mod by_stage;
mod by_type;
mod cut;
mod figure;
mod headings;
mod page;

pub use by_row::ByRow;
pub use by_stage::ByStage;
pub use by_type::{ByType, EmissionType};
pub use cut::Cut;
pub use figure::Figure;
pub use page::write_page;
