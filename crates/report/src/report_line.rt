//! The lines of a report.
ghost use Rattle.std.specs.Prelude.{Some};
ghost use Rattle.report.specs.ReportLines.{report_line_text};

use grades::Grade;
use pages::Figure;
use refusals::Refusal;
use std::fmt;

/// A line of a report, which prints itself with its line feed.
#[derive(Clone, Copy, Debug, PartialEq, Eq)]
pub enum ReportLine {
    /// `denied PLACE NUMBER`: a refusal. The place counts the sends from 1, or is 0 for a feed that is refused before
    /// anything is sent.
    Denied { place: usize, refusal: Refusal },
    /// `HEADING KILOGRAMS COUNT`: the figure of a heading, which is counted from 1. Those of a report are the stages.
    Heading { heading: usize, figure: Figure },
    /// `total KILOGRAMS COUNT`: the figure of the total.
    Total(Figure),
    /// `grade GRADE`: the number of the grade.
    Grade(Grade),
}

impl fmt::Display for ReportLine {
    ghost output = { λ line. Some (report_line_text line) };

    fn fmt<W: fmt::Write>(&self, f: &mut fmt::Formatter<W>) -> fmt::Result {
        match self {
            ReportLine::Denied { place, refusal } => {
                let number = refusal.number();
                writeln!(f, "denied {place} {number}")
            }
            ReportLine::Heading { heading, figure } => {
                let Figure { kilograms, count } = *figure;
                writeln!(f, "{heading} {kilograms} {count}")
            }
            ReportLine::Total(figure) => {
                let Figure { kilograms, count } = *figure;
                writeln!(f, "total {kilograms} {count}")
            }
            ReportLine::Grade(grade) => {
                let number = u16::from(*grade);
                writeln!(f, "grade {number}")
            }
        }
    }
}
