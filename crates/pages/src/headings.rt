//! Totals added up by heading.
ghost use Rattle.std.specs.Prelude.{◌≡◌};
ghost use Rattle.totals.specs.Sums.{sums_of};
ghost use Rattle.pages.specs.Pages.{heading_sums};

use crate::cut::Cut;
use booking::Row;
use totals::{ROWS, Totals};

// The totals of the headings, the first heading's first, from one pass over the rows.
pub(crate) fn totals_by_heading<C: Cut>(totals: Totals, cut: &C) -> Totals
    ensures { sums_of result ≡ heading_sums (C.assignment cut.now) (sums_of totals) }
{
    let mut grams = [0; ROWS];
    let mut counts = [0; ROWS];
    for at in 0..ROWS {
        let heading = cut.heading(Row::ALL[at]) - 1;
        grams[heading] += totals.grams[at];
        counts[heading] += totals.counts[at];
    }
    Totals { grams, counts }
}
