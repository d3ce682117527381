//! The value that pages and grades are drawn from.
ghost use Rattle.std.specs.Prelude.{◌≤◌, sum_by, sum, unsigned_abs};
ghost use Rattle.totals.specs.Sizes.{max_total_grams, max_count};

/// The number of rows of a sheet.
pub const ROWS: usize = 22;

/// The grams and the number of entries of each row, in the order of the rows. No value exceeds the bounds of 512
/// entries of the largest grams. Grams and counts are two arrays, since each is summed as one list.
#[derive(Clone, Copy, Debug, PartialEq, Eq)]
pub struct Totals {
    /// Grams of carbon dioxide equivalent, below zero in a row that is subtracted. Their sizes sum to at most
    /// 51,200,000,000,000,000.
    pub grams: [i64; ROWS],
    /// The number of entries that the grams are of. The counts sum to at most 512.
    pub counts: [u16; ROWS],
    ghost grams_within: { sum_by unsigned_abs grams ≤ max_total_grams },
    ghost counts_within: { sum counts ≤ max_count },
}
