//! The worked figures that are proved of the rules.
ghost use Rattle.std.specs.Prelude.{◌≡◌, length};
ghost use Rattle.figures.specs.Figures.{figures, AllTrue};

/// The number of worked figures. The contract states that each of them holds.
pub fn worked_figures() -> usize
    ensures held { AllTrue figures }
    ensures count { result ≡ length figures }
{
    12
}
