//! The trait of a source of factors.
ghost use Rattle.std.specs.Prelude.{◌≡◌};
ghost use Rattle.factors.specs.Maps.{FactorMap, factor_answer};

use crate::lack::Lack;
use domain::Factor;

/// A source of factors. It has one answer for every code, a factor or the code that is lacking: these answers are its
/// map, which is all that generic code knows of it.
pub trait FactorSource {
    /// The map of the source, for contracts and proofs alone.
    ghost factor_map: { Self → FactorMap };

    /// Returns the factor of the code, or the code that is lacking. The code is any number.
    fn factor(&self, code: u32) -> Result<Factor, Lack>
        ensures { factor_answer result ≡ factor_map self.now code };
}
