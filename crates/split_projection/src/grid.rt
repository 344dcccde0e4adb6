// Metres in whole units of a grid.

ghost use Rattle.std.specs.Prelude.{◌≡◌};
ghost use Rattle.split_projection.specs.Grid.{per_metre, rounded, units_in, units_of};

use range_plane::Scale;
use std::num::saturating_f64_to_i64;

// How many units a metre has.
#[tactic(auto, using(crate::proofs::Literals::ten_is))]
fn per_metre(unit: Scale) -> f64
    ensures { result ≡ per_metre unit }
{
    match unit {
        Scale::Metre => 1.0,
        Scale::Decimetre => 10.0,
    }
}

// Metres in units, rounded to a whole number.
#[tactic(auto, using(crate::proofs::Literals::one_half_is))]
fn rounded(metres: f64, unit: Scale) -> f64
    ensures { result ≡ rounded unit metres }
{
    (per_metre(unit) * metres + 0.5).floor()
}

// A whole number of units as an `i64`; `None` where it is past one.
#[tactic(auto, using(crate::proofs::Literals::least_is, crate::proofs::Literals::past_is))]
fn units_in(whole: f64) -> Option<i64>
    ensures { result ≡ units_in whole }
{
    if -9_223_372_036_854_775_808.0 <= whole && whole < 9_223_372_036_854_775_808.0 {
        Some(saturating_f64_to_i64(whole))
    } else {
        None
    }
}

/// Metres in whole units of a grid, half a unit rounded up: `floor(units * metres + 1/2)`, where product and sum are rounded to
/// the nearest `f64`. `None` where that is no `i64`, such as for metres that are no finite number.
pub fn units_of(metres: f64, unit: Scale) -> Option<i64>
    ensures { result ≡ units_of unit metres }
{
    units_in(rounded(metres, unit))
}
