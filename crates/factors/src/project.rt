//! The source that the programs use for a project.
ghost use Rattle.factors.specs.Layers.{project_map};

use crate::defaults::Defaults;
use crate::lack::Lack;
use crate::list::ProjectList;
use crate::recycled::Recycled;
use crate::source::FactorSource;
use domain::{Factor, FactorRow};

/// The factors of a project: `Recycled` over `Defaults` over the `ProjectList` of these rows. A row under the code of a
/// recycled material is never used.
#[derive(Clone, Copy, Debug, PartialEq, Eq)]
pub struct ProjectFactors<'a> {
    /// The rows of the project's own list.
    pub rows: &'a [FactorRow],
}

impl<'a> FactorSource for ProjectFactors<'a> {
    ghost factor_map = { λ s. project_map s.rows.now };

    fn factor(&self, code: u32) -> Result<Factor, Lack> {
        let list = ProjectList { rows: self.rows };
        let defaults = Defaults { below: list };
        Recycled { below: defaults }.factor(code)
    }
}
