//! Writing a page by any cut.
ghost use Rattle.std.specs.Prelude.{◌≡◌, IfOk};
ghost use Rattle.exact.specs.Rounding.{nearest_whole, over};
ghost use Rattle.totals.specs.Sums.{sums_of};
ghost use Rattle.pages.specs.Pages.{Writes, AddUp, page_figures, NeighboursAreNear};

use crate::cut::Cut;
use crate::figure::Figure;
use crate::headings::totals_by_heading;
use exact::Fraction;
use refusals::Refusal;
use totals::Totals;

// A kilogram, in grams.
const GRAMS_PER_KILOGRAM: u32 = 1_000;

/// Writes the figure of each heading into the first places lent, and returns the figure of the total. Running sums of
/// grams are rounded to whole kilograms, a half going up, and a heading prints by how much they grow; so the headings
/// add up to the total. Refused by `TooFewPlaces` (11) where there are fewer places than headings, and then no place is
/// changed.
pub fn write_page<C: Cut>(
    totals: Totals,
    cut: &C,
    figures: &mut [Figure],
) -> Result<Figure, Refusal>
    ensures value { Writes (C.assignment cut.now) (sums_of totals) figures.old result figures.new }
    ensures adds { IfOk result (λ total. AddUp (page_figures (C.assignment cut.now) (sums_of totals)) total) }
    ensures near { NeighboursAreNear (C.assignment cut.now) (sums_of totals) }
{
    if figures.len() < C::HEADINGS {
        return Err(Refusal::TooFewPlaces);
    }
    let sums = totals_by_heading(totals, cut);
    let mut running = 0;
    let mut total = Figure {
        kilograms: 0,
        count: 0,
    };
    for k in 0..C::HEADINGS {
        running += sums.grams[k];
        let kilograms = whole_kilograms(running);
        figures[k] = Figure {
            kilograms: kilograms - total.kilograms,
            count: sums.counts[k],
        };
        total = Figure {
            kilograms,
            count: total.count + sums.counts[k],
        };
    }
    Ok(total)
}

fn whole_kilograms(grams: i64) -> i64
    ensures { result ≡ nearest_whole (over grams 1000) }
{
    let exact = Fraction {
        numerator: grams,
        divisor: GRAMS_PER_KILOGRAM,
    };
    exact.round()
}
