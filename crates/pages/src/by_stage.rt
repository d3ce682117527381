//! The cut by stage of the building's life.
ghost use Rattle.std.specs.Prelude.{refl};
ghost use Rattle.pages.specs.Cuts.{by_stage};
ghost use Rattle.pages.specs.CutLaws.{by_stage_lawful};

use crate::cut::Cut;
use booking::Row;

/// The cut by stage. Headings 1 to 4 are the stages A to D, with the rows 1 and 2, 3 to 10, 11 to 21, and 22.
#[derive(Clone, Copy, Debug, PartialEq, Eq)]
pub struct ByStage;

impl Cut for ByStage {
    const HEADINGS: usize = 4;

    ghost HEADINGS = { 4 };

    ghost assignment = { λ _. by_stage };

    ghost size_is_headings = { λ _. refl };

    ghost lawful = { λ _. by_stage_lawful };

    fn heading(&self, row: Row) -> usize {
        row.rule().stage as usize
    }
}
