//! The listing of a feed: a line for each note with what it is booked at, and one for how the feed ends.
#![tactic(auto)]

mod basis;
mod feed_listing;
mod outcome;
mod part_line;
mod statement;
mod writing;

pub use basis::BookingBasis;
pub use feed_listing::listing;
pub use part_line::PartLine;
pub use writing::write_listing;
