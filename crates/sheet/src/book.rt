//! The book: a place for each number, in the order in which the numbers first came.
ghost use Rattle.std.specs.Prelude.{◌≡◌, ◌<◌, ◌≤◌, [], ◌==◌, length, Some, None, ◌↔◌, IsTrue};
ghost use Rattle.std.specs.List.{position};
ghost use Rattle.sheet.specs.LineSums.{held_lines, sums_of_lines};
ghost use Rattle.totals.specs.Sums.{sums_of};
ghost use Rattle.sheet.specs.Places.{used_places, book_places};
ghost use Rattle.sheet.specs.Placing.{Puts};
ghost use Rattle.sheet.specs.Indexes.{NoneBefore};

use crate::place::{EMPTY, Place};
use refusals::Refusal;
use totals::{ROWS, Totals};

pub(crate) const PLACES: usize = 512;

// The first `used` places are in use. A withdrawn number keeps its place, so that a late amendment is known to be late.
#[derive(Clone, Copy, Debug, PartialEq, Eq)]
pub(crate) struct Book {
    places: [Place; PLACES],
    used: usize,
}

impl Book {
    pub(crate) fn new() -> Book
        ensures { book_places result ≡ [] }
    {
        Book {
            places: [EMPTY; PLACES],
            used: 0,
        }
    }

    // The places in use. A book is a plain record, and its type puts no bound on `used`.
    fn used_places(&self) -> &[Place]
        ensures value { result.now ≡ used_places self.now }
        ensures few { length result.now ≤ PLACES }
    {
        &self.places[..self.used.min(PLACES)]
    }

    // The totals of the lines in the book.
    pub(crate) fn totals(&self) -> Totals
        ensures { sums_of result ≡ sums_of_lines (held_lines (book_places self.now)) }
    {
        let mut grams = [0; ROWS];
        let mut counts = [0; ROWS];
        let places = self.used_places();
        for place in places {
            if let Some(line) = place.line() {
                let row = line.row.index();
                grams[row] += line.signed_grams();
                counts[row] += 1;
            }
        }
        Totals { grams, counts }
    }

    // How many places are in use.
    pub(crate) fn len(&self) -> usize
        ensures value { result ≡ length (book_places self.now) }
        ensures few { result ≤ PLACES }
    {
        self.used_places().len()
    }

    // Where the first place stands that has the number, if one has. The search begins at `start`, before which no place
    // has it.
    fn find(&self, number: u32, start: usize) -> Option<usize>
        requires { NoneBefore start number (book_places self.now) }
        ensures { result ≡ position (λ p. p.number == number) (used_places self.now) }
    {
        let later = self.used_places().get(start..)?;
        let at = first_with(later, number)?;
        Some(start + at)
    }

    // Puts a place into the book: over that of the same number, where it is ahead of it, or into the next free one.
    // Refused by `Superseded` (21), `Contradicted` (22) or `BookFull` (23), and then the book is unchanged. The search
    // for its number begins at `start`, before which no place has it.
    pub(crate) fn put(&mut self, new: Place, start: usize) -> Result<(), Refusal>
        requires { NoneBefore start new.number (book_places self.now) }
        ensures { Puts new self.old result self.new }
    {
        match self.find(new.number, start) {
            Some(at) => self.replace(at, new),
            None => self.add(new),
        }
    }

    // Puts a place over the one that stands at `at`, the first of its number.
    fn replace(&mut self, at: usize, new: Place) -> Result<(), Refusal>
        requires { position (λ p. p.number == new.number) (used_places self.now) ≡ Some at }
        ensures { Puts new self.old result self.new }
    {
        new.check_replaces(&self.places[at])?;
        self.places[at] = new;
        Ok(())
    }

    // Puts a place into the next free one, where none has its number.
    fn add(&mut self, new: Place) -> Result<(), Refusal>
        requires { position (λ p. p.number == new.number) (used_places self.now) ≡ None }
        ensures { Puts new self.old result self.new }
    {
        if self.is_full() {
            return Err(Refusal::BookFull);
        }
        self.places[self.used] = new;
        self.used += 1;
        Ok(())
    }

    fn is_full(&self) -> bool
        ensures { IsTrue result ↔ (PLACES ≤ self.now.used) }
    {
        self.used >= PLACES
    }
}

// Where the first place stands that has the number.
fn first_with(places: &[Place], number: u32) -> Option<usize>
    ensures { result ≡ position (λ p. p.number == number) places.now }
{
    places.iter().position(|place| place.number == number)
}
