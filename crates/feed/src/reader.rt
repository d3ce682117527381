//! A reader that hands out the notes of a feed one after the other.
ghost use Rattle.std.specs.Prelude.{◌≤◌, length};

use crate::factor::factor_row_is_next;
use crate::frame::first_note;
use refusals::Refusal;

/// A part of a feed: a note, or all that a reader has not handed out yet.
#[derive(Clone, Copy, Debug, PartialEq, Eq)]
pub struct Part<'a> {
    /// The number of the note within the feed, from 1.
    pub place: usize,
    /// How many bytes of the feed come before it.
    pub start: usize,
    /// Its bytes.
    pub bytes: &'a [u8],
}

/// Hands out the notes of a feed as slices of the caller's bytes, in order. It is not `Copy`, since a copy would hand
/// out the same notes again.
#[derive(Debug, Drop)]
pub struct Reader<'a> {
    feed: &'a [u8],
    // How many bytes have been handed out.
    start: usize,
    // How many notes have been handed out.
    handed_out: usize,
    ghost start_within: { start ≤ length feed.now },
    ghost handed_within: { handed_out ≤ start },
}

impl<'a> Reader<'a> {
    ghost use Rattle.feed.specs.Feeds.{IsNewReader, AnswersNext, HandsOutNote, HandsOutFactorRow, KeepsReaderLaw, IsRest};

    /// Makes a reader at the start of the feed.
    pub fn new(feed: &'a [u8]) -> Reader<'a>
        ensures { IsNewReader feed.now result }
    {
        Reader {
            feed,
            start: 0,
            handed_out: 0,
        }
    }

    /// Hands out the next note, or `None` where no byte is left. Refused by `Unframed` (1) where the bytes left do not
    /// begin with a whole note. After `None` or a refusal the reader is unchanged, and every further call returns the
    /// same. No `Iterator`, since it would return the same refusal without end.
    pub fn try_next(&mut self) -> Result<Option<Part<'a>>, Refusal>
        ensures value { AnswersNext self.old result self.new }
        ensures law { KeepsReaderLaw self.old result self.new }
    {
        let left = self.rest();
        if left.bytes.is_empty() {
            return Ok(None);
        }
        let bytes = first_note(left.bytes)?;
        self.start += bytes.len();
        self.handed_out += 1;
        Ok(Some(Part { bytes, ..left }))
    }

    /// Hands out the next note, or `None` where `try_next` returns none or is refused. The reader is then unchanged.
    pub fn next_note(&mut self) -> Option<Part<'a>>
        ensures { HandsOutNote self.old result self.new }
    {
        self.try_next().unwrap_or(None)
    }

    /// Hands out the next note if it is of the kind of factor rows. Otherwise the result is `None`, and the reader is
    /// unchanged.
    pub fn next_factor_row(&mut self) -> Option<Part<'a>>
        ensures { HandsOutFactorRow self.old result self.new }
    {
        if factor_row_is_next(self.rest().bytes) {
            self.try_next().ok().flatten()
        } else {
            None
        }
    }

    /// Returns all that has not been handed out yet, with the place and the start of the next note.
    pub fn rest(&self) -> Part<'a>
        ensures { IsRest self.now result }
    {
        Part {
            place: self.handed_out + 1,
            start: self.start,
            bytes: &self.feed[self.start..],
        }
    }
}
