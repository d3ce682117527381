//! The sheet and its three calls: a send, a page and a grade.
ghost use Rattle.sheet.specs.Places.{book_places};
ghost use Rattle.sheet.specs.Indexes.{IsIndexOf};

use crate::book::Book;
use crate::index::Index;
use crate::place::Place;
use domain::Building;
use factors::FactorSource;
use feed::SentNote;
use grades::Grade;
use pages::{Cut, Figure};
use refusals::Refusal;

/// The account of one building over its whole life, at the factors of one source. It allocates nothing.
#[derive(Debug, Drop)]
pub struct Sheet<S> {
    building: Building,
    source: S,
    book: Book,
    index: Index,
    ghost indexed: { IsIndexOf index (book_places book) },
}

impl<S: FactorSource> Sheet<S> {
    ghost use Rattle.std.specs.Prelude.{◌≡◌, IfOk, IfErr};
    ghost use Rattle.domain.specs.Buildings.{numbers_of};
    ghost use Rattle.grades.specs.Grades.{grade_number};
    ghost use Rattle.sheet.specs.Histories.{DrawsPage, GivesGrade, send_event, page_event, grade_event};
    ghost use Rattle.sheet.specs.Laws.{KeepsLaw};
    ghost use Rattle.sheet.specs.States.{state_of, new_state, ChangesPlaceOnly, Sends, GivesSentPlace, NamesSentLack};

    /// Opens a sheet whose book is empty.
    pub fn open(building: Building, source: S) -> Sheet<S>
        ensures { state_of S.factor_map result ≡ new_state (numbers_of building) (S.factor_map source) }
    {
        Sheet {
            building,
            source,
            book: Book::new(),
            index: Index::new(),
        }
    }

    /// Enters the first note of the bytes in the book, at a new place or at that of its number. Refused, with nothing
    /// changed, by `Unframed` (1), `UnexpectedKind` (2), `WrongLength` (3), an entry's `UnknownRow` (5) to `TooLarge`
    /// (10), `Superseded` (21), `Contradicted` (22) or `BookFull` (23); the smallest that applies is returned.
    pub fn send(&mut self, bytes: &[u8]) -> Result<(), Refusal>
        ensures value { Sends (state_of S.factor_map self.old) bytes.now result (state_of S.factor_map self.new) }
        ensures changed { IfOk result (λ _. ChangesPlaceOnly self.old self.new) }
        ensures refused { IfErr result (λ _. self.new ≡ self.old) }
        ensures law { KeepsLaw (state_of S.factor_map self.old) (send_event bytes.now result) }
    {
        let place = self.place_of(bytes)?;
        let start = self.index.start(place.number);
        let next = self.book.len();
        self.book.put(place, start)?;
        // A new number now has the place `next`. A held one has a place before that, and its search begins as before.
        self.index.lower(place.number, next);
        Ok(())
    }

    // The place that the first note of the bytes takes, independent of what the book holds.
    fn place_of(&self, bytes: &[u8]) -> Result<Place, Refusal>
        ensures value { GivesSentPlace (state_of S.factor_map self.now) bytes.now result }
        ensures named { IfErr result (NamesSentLack (state_of S.factor_map self.now) bytes.now) }
    {
        let sent = SentNote::read(bytes)?;
        Place::of(&sent, &self.building, &self.source)
    }

    /// Writes a page by a cut into the first places lent, one for each heading, and returns the figure of the total.
    /// Refused by `TooFewPlaces` (11) where there are fewer, and then no place is changed.
    pub fn page<C: Cut>(&self, cut: &C, figures: &mut [Figure]) -> Result<Figure, Refusal>
        ensures value { DrawsPage (state_of S.factor_map self.now) (C.assignment cut.now) figures.old
            result figures.new }
        ensures law { KeepsLaw (state_of S.factor_map self.now)
            (page_event (C.assignment cut.now) figures.old result figures.new) }
    {
        pages::write_page(self.book.totals(), cut, figures)
    }

    /// The highest grade that the building meets by the entries in the book. Only the energy of use matters: until all
    /// of it has been sent, the grade may be better than the building will keep.
    pub fn grade(&self) -> Grade
        ensures value { GivesGrade (state_of S.factor_map self.now) (grade_number result) }
        ensures law { KeepsLaw (state_of S.factor_map self.now) (grade_event (grade_number result)) }
    {
        grades::grade(&self.building, self.book.totals())
    }
}
