//! The source that adds the built-in factors to another source.
ghost use Rattle.factors.specs.Layers.{defaults_map};

use crate::lack::Lack;
use crate::source::FactorSource;
use crate::table::BuiltIn;
use domain::Factor;

/// The source below, and the built-in table for the codes that it lacks. Where the table lacks the code too, the lack
/// is that of the source below.
#[derive(Clone, Copy, Debug, Drop, PartialEq, Eq)]
pub struct Defaults<S> {
    /// The source that is asked first.
    pub below: S,
}

impl<S: FactorSource> FactorSource for Defaults<S> {
    ghost factor_map = { λ s. defaults_map (S.factor_map s.below) };

    fn factor(&self, code: u32) -> Result<Factor, Lack> {
        self.below
            .factor(code)
            .or_else(|lack| BuiltIn.factor(code).map_err(|_| lack))
    }
}
