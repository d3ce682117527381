//! The report of a project.
ghost use Rattle.std.specs.Prelude.{IfOk, string_bytes};
ghost use Rattle.report.specs.ProjectReports.{IsProjectReport};
ghost use Rattle.feed.specs.Writing.{GrowsByText};
ghost use Rattle.report.specs.Calls.{WritesPage};
ghost use Rattle.report.specs.Projects.{parts_of_project};
ghost use Rattle.sheet.specs.States.{state_of};

use crate::page_lines::PageLines;
use crate::project::Project;
use crate::report_line::ReportLine;
use crate::sending::send_all;
use factors::{FactorSource, ProjectFactors};
use pages::{ByStage, Cut, Figure};
use sheet::Sheet;
use std::alloc::{AllocError, Global};

// The lines of the refused sends, then the page by stage and the grade.
pub(crate) fn project_report(alloc: Global, project: &Project) -> Result<String, AllocError>
    ensures { IfOk result (λ text. IsProjectReport (parts_of_project project.now) (string_bytes text)) }
{
    let source = ProjectFactors {
        rows: project.rows.as_slice(),
    };
    let mut sheet = Sheet::open(project.building, source);
    let mut text = send_all(alloc, &mut sheet, project.notes)?;
    append_stage_page(&mut text, &sheet)?;
    let grade = ReportLine::Grade(sheet.grade());
    write!(text, "{grade}")?;
    Ok(text)
}

// Appends the page by stage: a line for each stage, and one for the total.
fn append_stage_page<S: FactorSource>(text: &mut String, sheet: &Sheet<S>) -> Result<(), AllocError>
    ensures { IfOk result (λ _. GrowsByText (WritesPage (state_of S.factor_map sheet.now))
        (string_bytes text.old) (string_bytes text.new)) }
{
    let mut stages = [Figure {
        kilograms: 0,
        count: 0,
    }; ByStage::HEADINGS];
    let total = sheet.page(&ByStage, &mut stages).unwrap();
    let page = PageLines {
        headings: &stages,
        total,
    };
    write!(text, "{page}")
}
