//! Sending the notes of a feed into a sheet.
ghost use Rattle.std.specs.Prelude.{IfOk, string_bytes};
ghost use Rattle.report.specs.ProjectReports.{SendsAllFrom};
ghost use Rattle.feed.specs.Writing.{GrowsByText};
ghost use Rattle.report.specs.Calls.{WritesSend};
ghost use Rattle.sheet.specs.States.{state_of};

use crate::report_line::ReportLine;
use factors::FactorSource;
use feed::{Part, Reader};
use sheet::Sheet;
use std::alloc::{AllocError, Global};

// Sends every note in order, and last the bytes that are left, if any. Returns the lines of the refused sends.
#[tactic(auto, using(feed::proofs::ReaderEnds::fewer_left))]
pub(crate) fn send_all<S: FactorSource>(
    alloc: Global,
    sheet: &mut Sheet<S>,
    notes: &[u8],
) -> Result<String, AllocError>
    ensures { IfOk result (λ text. SendsAllFrom (state_of S.factor_map sheet.old) notes.now
        (state_of S.factor_map sheet.new) (string_bytes text)) }
{
    let mut text = String::new(alloc);
    let mut reader = Reader::new(notes);
    while let Some(part) = reader.next_note() {
        send(&mut text, sheet, &part)?;
    }
    let left = reader.rest();
    if left.bytes.is_empty() {
        return Ok(text);
    }
    send(&mut text, sheet, &left)?;
    Ok(text)
}

// Sends the first note of a part, and appends the line of its refusal, if it is refused.
fn send<S: FactorSource>(
    text: &mut String,
    sheet: &mut Sheet<S>,
    part: &Part,
) -> Result<(), AllocError>
    ensures { IfOk result (λ _. GrowsByText (WritesSend (state_of S.factor_map sheet.old) part.now.place
        part.now.bytes.now (state_of S.factor_map sheet.new)) (string_bytes text.old) (string_bytes text.new)) }
{
    match sheet.send(part.bytes) {
        Ok(()) => Ok(()),
        Err(refusal) => {
            let place = part.place;
            let line = ReportLine::Denied { place, refusal };
            write!(text, "{line}")
        }
    }
}
