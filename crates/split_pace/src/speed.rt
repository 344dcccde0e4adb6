// Whether an animal comes from one fix to another.

ghost use Rattle.std.specs.Prelude.{◌≡◌, ◌+◌, ◌*◌, ◌^◌, ◌<◌, ◌≤◌, SomeIff};
ghost use Rattle.split_numbers.specs.Decimal.{units_per_metre};
ghost use Rattle.split_pace.specs.Speed.{is_reached, is_within, reach_in};

use range_plane::Scale;
use split_tracks::Entry;

// How many millionths one has.
const MILLION: u128 = 1_000_000;

/// A speed, in whole millionths of a metre a second.
#[derive(Clone, Copy, PartialEq, Eq, Debug)]
pub struct Speed {
    pub millionths: u64,
}

// How many units a metre has.
fn units_per_metre(unit: Scale) -> u128
    ensures { result ≡ units_per_metre unit }
{
    match unit {
        Scale::Metre => 1,
        Scale::Decimetre => 10,
    }
}

// How far an animal comes in so many seconds, in millionths of a unit; `None` where that is 2^128 or more.
fn reach_in(unit: Scale, speed: Speed, seconds: u64) -> Option<u128>
    ensures { SomeIff result (reach_in unit speed seconds < 2 ^ 128) (reach_in unit speed seconds) }
{
    let units = u128::from(speed.millionths) * units_per_metre(unit);
    units.checked_mul(u128::from(seconds))
}

// Whether so many whole units and a rest of millionths of one are as far as a fix, where the whole units are no less than the
// easting to it, and less than the easting and the northing together. By how much the squares of these two are more than that
// of the whole units is compared with what the rest adds to that.
fn is_within_near(whole: u128, rest: u128, easting: u128, northing: u128) -> bool
    requires least { easting ≤ whole }
    requires most { whole < easting + northing }
    requires rest { rest < MILLION }
    requires easting { easting < 2 ^ 64 }
    requires northing { northing < 2 ^ 64 }
    ensures { result ≡ is_within (MILLION * whole + rest) easting northing }
{
    let square = northing * northing;
    let Some(spare) = (whole - easting).checked_mul(whole + easting) else {
        return true;
    };
    if square <= spare {
        return true;
    }
    square - spare <= rest * (2 * MILLION * whole + rest) / (MILLION * MILLION)
}

// Whether so many millionths of a unit are as far as a fix that is so many units to the east or west, and so many to the
// north or south.
fn is_within(reach: u128, easting: u128, northing: u128) -> bool
    requires easting { easting < 2 ^ 64 }
    requires northing { northing < 2 ^ 64 }
    ensures { result ≡ is_within reach easting northing }
{
    let (whole, rest) = (reach / MILLION, reach % MILLION);
    if whole < easting {
        false
    } else if easting + northing <= whole {
        true
    } else {
        is_within_near(whole, rest, easting, northing)
    }
}

// Whether an animal of this speed comes from one entry to another, by whole seconds.
pub(crate) fn is_reached(unit: Scale, speed: Speed, before: &Entry, entry: &Entry) -> bool
    ensures { result ≡ is_reached unit speed before.now entry.now }
{
    let easting = entry.easting.abs_diff(before.easting);
    let northing = entry.northing.abs_diff(before.northing);
    let seconds = entry.moment.second.saturating_sub(before.moment.second);
    match reach_in(unit, speed, seconds) {
        Some(reach) => is_within(reach, u128::from(easting), u128::from(northing)),
        None => true,
    }
}
