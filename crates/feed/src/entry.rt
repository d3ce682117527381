//! An entry as it was sent, before its numbers are checked. A measured quantity is kept as its bits, since a
//! floating-point value would not tell all patterns for "not a number" apart.
ghost use Rattle.std.specs.Prelude.{◌≡◌, ◌≤◌, length, Some};
ghost use Rattle.feed.specs.declared.kind.Kind.{Kind};
ghost use Rattle.feed.specs.EntryFields.{quantity_offset, entry_kind, entry_head_of_note, kind_quantity, decoded_entry};
ghost use Rattle.feed.specs.Kinds.{note_length};

use crate::kind::Kind;
use crate::little_endian::number_at;
use crate::sent_note::CONTENT;
use domain::{Entry, EntryHead, Quantity};
use std::num::f64_from_bits_with_nan;

// The offsets of the fields of an entry in its note.
const ROW: usize = CONTENT;

const SPAN: usize = ROW + 2;

const CODE: usize = SPAN + 2;

const QUANTITY: usize = CODE + 4;

/// The quantity of an entry, as it was sent.
#[derive(Clone, Copy, Debug, PartialEq, Eq)]
pub enum SentQuantity {
    /// Thousandths of a unit, any number.
    Counted(u64),
    /// The bits of a binary64 number of units, any pattern.
    Measured(u64),
}

/// An entry as it was sent. None of its numbers is checked.
#[derive(Clone, Copy, Debug, PartialEq, Eq)]
pub struct SentEntry {
    /// Its row, span and code.
    pub head: EntryHead,
    /// How much it is for.
    pub quantity: SentQuantity,
}

impl SentQuantity {
    /// The kind of note that holds such a quantity.
    pub fn kind(self) -> Kind
        ensures { result ≡ entry_kind self }
    {
        match self {
            SentQuantity::Counted(_) => Kind::Counted,
            SentQuantity::Measured(_) => Kind::Measured,
        }
    }

    // The quantity of a note of this kind, if notes of the kind have one.
    pub(crate) fn of_note(kind: Kind, note: &[u8]) -> Option<SentQuantity>
        requires { length note.now ≡ note_length kind }
        ensures { result ≡ kind_quantity (Some kind) note.now }
    {
        match kind {
            Kind::Counted => Some(SentQuantity::Counted(number_at(note, QUANTITY))),
            Kind::Measured => Some(SentQuantity::Measured(number_at(note, QUANTITY))),
            Kind::Building | Kind::Factor | Kind::Withdrawal => None,
        }
    }
}

// The fields of an entry before its quantity.
pub(crate) fn entry_head(note: &[u8]) -> EntryHead
    requires { quantity_offset ≤ length note.now }
    ensures { result ≡ entry_head_of_note note.now }
{
    EntryHead {
        row: number_at(note, ROW),
        span: number_at(note, SPAN),
        code: number_at(note, CODE),
    }
}

/// The entry in the form in which it is booked: the bits of a measured quantity become a number. Nothing is checked.
impl From<SentEntry> for Entry {
    ghost from_gives = { λ e r. r ≡ decoded_entry e };

    fn from(e: SentEntry) -> Entry {
        let quantity = match e.quantity {
            SentQuantity::Counted(thousandths) => Quantity::Counted(thousandths),
            SentQuantity::Measured(bits) => Quantity::Measured(f64_from_bits_with_nan(bits)),
        };
        Entry {
            head: e.head,
            quantity,
        }
    }
}
