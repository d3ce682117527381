//! What a line says of bytes, by their first note.
ghost use Rattle.std.specs.Prelude.{Some};
ghost use Rattle.listing.specs.ListingLines.{IsStatement};
ghost use Rattle.listing.specs.Bases.{basis_of};
ghost use Rattle.listing.specs.StatementTexts.{statement_text};

use crate::basis::BookingBasis;
use crate::outcome::Outcome;
use feed::{Kind, Note, NoteHead};
use refusals::Refusal;
use std::fmt;

#[derive(Clone, Copy, Debug, PartialEq, Eq)]
pub(crate) enum Statement {
    // A note, and what it is booked at if it is an entry.
    Note(Note, Option<Outcome>),
    // The head of a note that is refused, and its refusal.
    Refused(NoteHead, Refusal),
    // The number of bytes that frame no note, and their refusal.
    Unframed(usize, Refusal),
}

impl Statement {
    pub(crate) fn of(basis: &BookingBasis, bytes: &[u8]) -> Statement
        ensures { IsStatement (basis_of basis.now) bytes.now (statement_text result) }
    {
        match Note::read(bytes) {
            Ok(note) => Statement::Note(note, basis.outcome(&note)),
            Err(refusal) => match NoteHead::read(bytes) {
                Ok(head) => Statement::Refused(head, refusal),
                Err(_) => Statement::Unframed(bytes.len(), refusal),
            },
        }
    }
}

impl fmt::Display for Statement {
    ghost output = { λ s. Some (statement_text s) };

    fn fmt<W: fmt::Write>(&self, f: &mut fmt::Formatter<W>) -> fmt::Result {
        match self {
            Statement::Note(note, outcome) => match outcome {
                Some(outcome) => write!(f, "{note} {outcome}"),
                None => write!(f, "{note}"),
            },
            Statement::Refused(head, refusal) => {
                let kind = head.kind;
                let length = head.length;
                match Kind::try_from(kind) {
                    Ok(word) => write!(f, "{word} kind={kind} length={length} {refusal}"),
                    Err(_) => write!(f, "unknown kind={kind} length={length} {refusal}"),
                }
            }
            Statement::Unframed(left, refusal) => write!(f, "unframed left={left} {refusal}"),
        }
    }
}
