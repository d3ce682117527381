//! The one place that decides which way a half is rounded.
ghost use Rattle.std.specs.Prelude.{◌≡◌, ◌-◌, ◌^◌, ◌<◌, pos, ◌+ℤ◌, ◌*ℤ◌, ◌<ℤ◌};
ghost use Rattle.exact.specs.Rounding.{nearest_whole, over};

// The whole number nearest to `whole + rest / divisor`, a half going up.
pub(crate) fn round(whole: i64, rest: u64, divisor: u64) -> i64
    requires part { rest < divisor }
    requires room { 0 < rest → whole <ℤ pos (2 ^ 63 - 1) }
    ensures { result ≡ nearest_whole (over (whole *ℤ pos divisor +ℤ pos rest) divisor) }
{
    // Doubling the rest could wrap.
    if rest < divisor - rest {
        whole
    } else {
        whole + 1
    }
}
