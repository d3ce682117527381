//! The text of a note: its kind, and its fields by name.
ghost use Rattle.std.specs.Prelude.{Some};
ghost use Rattle.domain.specs.FieldTexts.{fields_text};
ghost use Rattle.feed.specs.NoteTexts.{entry_fields, sent_note_text, note_text};

use crate::entry::{SentEntry, SentQuantity};
use crate::note::Note;
use crate::sent_note::{SentContent, SentNote};
use domain::EntryHead;
use std::fmt;

impl fmt::Display for SentEntry {
    ghost output = { λ e. Some (fields_text (entry_fields e)) };

    fn fmt<W: fmt::Write>(&self, f: &mut fmt::Formatter<W>) -> fmt::Result {
        let EntryHead { row, span, code } = self.head;
        let (name, quantity) = match self.quantity {
            SentQuantity::Counted(thousandths) => ("quantity", thousandths),
            SentQuantity::Measured(bits) => ("bits", bits),
        };
        write!(f, "row={row} span={span} code={code} {name}={quantity}")
    }
}

impl fmt::Display for SentNote {
    ghost output = { λ s. Some (sent_note_text s) };

    fn fmt<W: fmt::Write>(&self, f: &mut fmt::Formatter<W>) -> fmt::Result {
        let kind = self.kind();
        let number = self.number;
        let revision = self.revision;
        match self.content {
            SentContent::Entry(entry) => {
                write!(f, "{kind} number={number} revision={revision} {entry}")
            }
            SentContent::Withdrawal => write!(f, "{kind} number={number} revision={revision}"),
        }
    }
}

impl fmt::Display for Note {
    ghost output = { λ note. Some (note_text note) };

    fn fmt<W: fmt::Write>(&self, f: &mut fmt::Formatter<W>) -> fmt::Result {
        match self {
            Note::Building(building) => write!(f, "{building}"),
            Note::Factor(row) => write!(f, "{row}"),
            Note::Sent(sent) => write!(f, "{sent}"),
        }
    }
}
