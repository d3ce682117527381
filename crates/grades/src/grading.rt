//! The grades and their numbers.
ghost use Rattle.std.specs.Prelude.{◌≡◌};
ghost use Rattle.grades.specs.Grades.{grade_number};

/// A building's grade by the energy of its use, as the zero-carbon draft has them. A higher number is a better grade.
#[derive(Clone, Copy, Debug, PartialEq, Eq)]
pub enum Grade {
    /// Neither low-carbon nor near-zero-carbon.
    Ungraded = 0,
    /// Low-carbon.
    LowCarbon = 1,
    /// Near-zero-carbon.
    NearZero = 2,
}

impl From<Grade> for u16 {
    ghost from_gives = { λ grade n. n ≡ grade_number grade };

    fn from(grade: Grade) -> u16 {
        grade as u16
    }
}
