//! The report of a feed.
ghost use Rattle.std.specs.Prelude.{IfOk, string_bytes};
ghost use Rattle.report.specs.Reports.{IsReportText, IsLawfulReport};
ghost use Rattle.feed.specs.Writing.{IsOnlyText};

use crate::project::Project;
use crate::project_report::project_report;
use crate::report_line::ReportLine;
use feed::OpeningError;
use std::alloc::{AllocError, Global};

/// The report of a feed's bytes: a line for each refused send, the page by stage and the grade. A feed that is refused
/// before anything is sent, by `Unframed` (1) to `OutOfRange` (4), `TooManyFactorRows` (24) or `FeedTooLong` (25), has
/// the one line `denied 0 NUMBER`.
pub fn report(alloc: Global, feed: &[u8]) -> Result<String, AllocError>
    ensures value { IfOk result (λ text. IsReportText feed.now (string_bytes text)) }
    ensures only { IfOk result (λ text. IsOnlyText (IsReportText feed.now) (string_bytes text)) }
    ensures law { IfOk result (λ text. IsLawfulReport feed.now (string_bytes text)) }
{
    match Project::read(alloc, feed) {
        Ok(project) => project_report(alloc, &project),
        Err(OpeningError::Refused(refusal)) => {
            let line = ReportLine::Denied { place: 0, refusal };
            format!(in alloc; "{line}")
        }
        Err(OpeningError::OutOfMemory(error)) => Err(error),
    }
}
