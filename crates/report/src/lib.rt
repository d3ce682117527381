//! The report of a feed: the refusal of the feed, or its refused sends, the page by stage and the grade.
#![tactic(auto)]

mod feed_report;
mod page_lines;
mod project;
mod project_report;
mod report_line;
mod sending;
mod writing;

pub use feed_report::report;
pub use page_lines::PageLines;
pub use report_line::ReportLine;
pub use writing::write_report;
