//! The feed: reading notes that lie end to end in bytes, and the building and factor rows that a feed opens with.
#![tactic(auto)]

mod building;
mod content;
mod entry;
mod factor;
mod frame;
mod input;
mod kind;
mod little_endian;
mod note;
mod note_text;
mod opening;
mod reader;
mod sent_note;

pub use building::read_building;
pub use entry::{SentEntry, SentQuantity};
pub use factor::read_factor_row;
pub use frame::{NoteHead, first_note};
pub use input::{MAX_FEED_BYTES, read_feed};
pub use kind::Kind;
pub use note::Note;
pub use opening::{Opening, OpeningError};
pub use reader::{Part, Reader};
pub use sent_note::{SentContent, SentNote};
