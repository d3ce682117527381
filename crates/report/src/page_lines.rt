//! The lines of a page.
ghost use Rattle.std.specs.Prelude.{Some};
ghost use Rattle.report.specs.ReportLines.{page_lines};

use crate::report_line::ReportLine;
use pages::Figure;
use std::fmt;

/// The lines of a page, which print themselves: one for each heading, numbered from 1, and one for the total.
#[derive(Clone, Copy, Debug, PartialEq, Eq)]
pub struct PageLines<'a> {
    /// The figures of the headings, in their order.
    pub headings: &'a [Figure],
    /// The figure of the total.
    pub total: Figure,
}

impl fmt::Display for PageLines<'_> {
    ghost output = { λ page. Some (page_lines page.headings.now page.total) };

    fn fmt<W: fmt::Write>(&self, f: &mut fmt::Formatter<W>) -> fmt::Result {
        for (k, figure) in self.headings.iter().enumerate() {
            let heading = k + 1;
            let figure = *figure;
            let line = ReportLine::Heading { heading, figure };
            write!(f, "{line}")?;
        }
        let line = ReportLine::Total(self.total);
        write!(f, "{line}")
    }
}
