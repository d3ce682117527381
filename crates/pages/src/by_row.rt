//! The cut by row.
ghost use Rattle.std.specs.Prelude.{refl};
ghost use Rattle.pages.specs.Cuts.{by_row};
ghost use Rattle.pages.specs.CutLaws.{by_row_lawful};

use crate::cut::Cut;
use booking::Row;

/// The cut by row: each of the 22 rows is a heading, under its own number.
#[derive(Clone, Copy, Debug, PartialEq, Eq)]
pub struct ByRow;

impl Cut for ByRow {
    const HEADINGS: usize = 22;

    ghost HEADINGS = { 22 };

    ghost assignment = { λ _. by_row };

    ghost size_is_headings = { λ _. refl };

    ghost lawful = { λ _. by_row_lawful };

    fn heading(&self, row: Row) -> usize {
        usize::from(u16::from(row))
    }
}
