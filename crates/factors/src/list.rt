//! A project's own list of factors, as a source.
ghost use Rattle.std.specs.Prelude.{◌≡◌, option_map};
ghost use Rattle.domain.specs.Factors.{factor_numbers};
ghost use Rattle.factors.specs.Lists.{list_map, row_factor};

use crate::lack::Lack;
use crate::source::FactorSource;
use domain::{Factor, FactorRow};

/// The rows of a project's own list. The first row that has the code and is in range gives the factor; rows out of
/// range are passed over. Where there is none, the code that was asked for is lacking.
#[derive(Clone, Copy, Debug, PartialEq, Eq)]
pub struct ProjectList<'a> {
    /// The rows, in the order in which they are searched.
    pub rows: &'a [FactorRow],
}

impl<'a> FactorSource for ProjectList<'a> {
    ghost factor_map = { λ s. list_map s.rows.now };

    fn factor(&self, code: u32) -> Result<Factor, Lack> {
        for row in self.rows {
            if let Some(factor) = factor_of(row, code) {
                return Ok(factor);
            }
        }
        Err(Lack { code })
    }
}

// The factor of a row, if it has the code and its numbers are in range.
#[tactic(auto, using(crate::proofs::ListRows::in_range))]
fn factor_of(row: &FactorRow, code: u32) -> Option<Factor>
    ensures { option_map factor_numbers result ≡ row_factor row.now code }
{
    if row.code != code {
        return None;
    }
    Factor::try_from(row.factor).ok()
}
