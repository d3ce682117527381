//! Cuts: how rows are put under the headings of a page.
ghost use Rattle.std.specs.Prelude.{◌≡◌, ℕ};
ghost use Rattle.booking.specs.Rows.{row_number};
ghost use Rattle.pages.specs.Cuts.{Assignment, IsCut};

use booking::Row;

/// A cut of a page: a number of headings, and one of them for every row.
pub trait Cut {
    /// The number of headings, 1 to 22.
    const HEADINGS: usize;

    /// `HEADINGS` as a number for clauses.
    ghost HEADINGS: { ℕ };

    /// The heading of each row, by number.
    ghost assignment: { Self → Assignment };

    /// The heading of a row, from 1 to `HEADINGS`.
    fn heading(&self, row: Row) -> usize
        ensures { result ≡ (assignment self.now).heading (row_number row) };

    /// The assignment has `HEADINGS` headings.
    ghost size_is_headings: { (s : Self) → (assignment s).size ≡ HEADINGS };

    /// The assignment has 1 to 22 headings, and gives every row one of them.
    ghost lawful: { (s : Self) → IsCut (assignment s) };
}
