//! The sheet: a book of what was sent, and the pages and grades that are drawn from it.
#![tactic(auto)]

mod all_calls;
mod book;
mod index;
mod place;
mod record;
mod sheet;

pub use all_calls::page_and_grade;
pub use sheet::Sheet;
