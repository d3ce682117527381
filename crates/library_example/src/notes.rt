//! The bytes of notes.
ghost use Rattle.booking.specs.Rows.{row_number};
ghost use Rattle.feed.specs.Frames.{IsOneNote};
ghost use Rattle.feed.specs.SentNotes.{SaysSentNote};
ghost use Rattle.library_example.specs.Entries.{counted_entry};

use booking::Row;

// An entry that is counted and has no span. Each number has its lowest byte first.
#[tactic(auto, unfolding(feed::specs::Fields::field))]
pub(crate) fn entry(number: u32, revision: u32, row: Row, code: u32, thousandths: u64) -> [u8; 28]
    ensures one { IsOneNote result }
    ensures says { SaysSentNote result (counted_entry number revision (row_number row) code thousandths) }
{
    let [n0, n1, n2, n3] = number.to_le_bytes();
    let [v0, v1, v2, v3] = revision.to_le_bytes();
    let [r0, r1] = u16::from(row).to_le_bytes();
    let [c0, c1, c2, c3] = code.to_le_bytes();
    let [q0, q1, q2, q3, q4, q5, q6, q7] = thousandths.to_le_bytes();
    [
        28, 0, // length
        3, 0, // kind
        n0, n1, n2, n3, // number
        v0, v1, v2, v3, // revision
        r0, r1, // row
        0, 0, // span
        c0, c1, c2, c3, // code
        q0, q1, q2, q3, q4, q5, q6, q7, // quantity, in thousandths
    ]
}
