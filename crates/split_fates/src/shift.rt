// By how much coordinates of a local grid are shifted.

ghost use Rattle.std.specs.Prelude.{◌≡◌, IfSome, true};
ghost use Rattle.std.specs.Int.{int_max, int_min};
ghost use Rattle.split_fates.specs.Shift.{IsNear, IsNearShift, axis_shift, extent_of, fits, in_units, is_near, least_of, most_of, moved_shift, own_shift, shift_by, shift_of, used_metres, whole_shift, widened};

use crate::fates::is_on_grid;
use range_plane::Scale;
use split_reading::{Row, Told};

// How far from 0 a coordinate may be that is shifted, in units. None is farther that has 12 digits before its point.
const FARTHEST: i64 = 100_000_000_000_000;

// By multiples of how many metres coordinates are shifted.
const STEP: i64 = 1_000_000;

/// The least and the greatest easting and northing of some fixes.
#[derive(Clone, Copy, PartialEq, Eq, Debug)]
pub struct Extent {
    pub least: (i64, i64),
    pub most: (i64, i64),
}

// Where the fix of a record is, if it is taken and has metres.
fn used_metres(row: &Row) -> Option<(i64, i64)>
    ensures { result ≡ used_metres row.now }
{
    match row.told {
        Told::Fix(fix) => { if fix.is_taken() { fix.metres } else { None } }
        Told::LeftOut(_) => None,
    }
}

// The less of two numbers.
fn less_of(a: i64, b: i64) -> i64
    ensures { result ≡ int_min a b }
{
    if b < a { b } else { a }
}

// The greater of two numbers.
fn more_of(a: i64, b: i64) -> i64
    ensures { result ≡ int_max a b }
{
    if b < a { a } else { b }
}

// The less of each of two pairs of coordinates.
fn least_of(a: (i64, i64), b: (i64, i64)) -> (i64, i64)
    ensures { result ≡ least_of a b }
{
    (less_of(a.0, b.0), less_of(a.1, b.1))
}

// The greater of each.
fn most_of(a: (i64, i64), b: (i64, i64)) -> (i64, i64)
    ensures { result ≡ most_of a b }
{
    (more_of(a.0, b.0), more_of(a.1, b.1))
}

/// The extent of fixes and of one more, which is there.
pub fn widened(extent: Option<Extent>, at: (i64, i64)) -> Option<Extent>
    ensures { result ≡ widened extent at }
{
    let (least, most) = match extent {
        None => (at, at),
        Some(extent) => (least_of(extent.least, at), most_of(extent.most, at)),
    };
    Some(Extent { least, most })
}

/// The extent of the fixes that are used, no filter leaves out and have metres; none where there is no such one.
pub fn extent_of(rows: &[Row]) -> Option<Extent>
    ensures { result ≡ extent_of rows.now }
{
    let mut extent = None;
    for row in rows {
        if let Some(at) = used_metres(row) {
            extent = widened(extent, at);
        }
    }
    extent
}

// So many metres in units.
fn in_units(unit: Scale, metres: i64) -> i64
    requires { IsNearShift metres }
    ensures { result ≡ in_units unit metres }
{
    match unit {
        Scale::Metre => metres,
        Scale::Decimetre => metres * 10,
    }
}

// Whether coordinates from the least to the greatest are on the grid once they are shifted by so many units.
fn fits(unit: Scale, least: i64, most: i64, shift: i64) -> bool
    ensures { result ≡ fits unit least most shift }
{
    is_on_grid(least, shift, unit) && is_on_grid(most, shift, unit)
}

// The multiple of so many metres that brings the least coordinate to 0 or above and below so many metres.
fn whole_shift(unit: Scale, least: i64) -> i64
    requires { IsNear least }
    ensures value { result ≡ whole_shift unit least }
    ensures near { IsNearShift result }
{
    match unit {
        Scale::Metre => -least.div_euclid(STEP) * STEP,
        Scale::Decimetre => -least.div_euclid(10 * STEP) * STEP,
    }
}

// Whether a coordinate is no farther from 0 than one of twelve digits can be.
fn is_near(coordinate: i64) -> bool
    ensures value { result ≡ is_near coordinate }
    ensures near { result ≡ true → IsNear coordinate }
{
    !(coordinate < -FARTHEST) && !(FARTHEST < coordinate)
}

// That shift, if all are then on the grid.
fn moved_shift(unit: Scale, least: i64, most: i64) -> Option<i64>
    requires { IsNear least }
    ensures value { result ≡ moved_shift unit least most }
    ensures near { IfSome result IsNearShift }
{
    let shift = whole_shift(unit, least);
    if fits(unit, least, most, in_units(unit, shift)) {
        Some(shift)
    } else {
        None
    }
}

/// By how many metres the coordinates of one axis are shifted, which go from the least to the greatest: by none, where all
/// are on the grid; else by the multiple of 1,000,000 m that brings the least to 0 or above and below 1,000,000 m. `None`
/// where they are wider than the grid, or the least is farther from 0 than twelve digits go.
pub fn shift_of(unit: Scale, least: i64, most: i64) -> Option<i64>
    ensures value { result ≡ shift_of unit least most }
    ensures near { IfSome result IsNearShift }
{
    if fits(unit, least, most, 0) {
        Some(0)
    } else if is_near(least) {
        moved_shift(unit, least, most)
    } else {
        None
    }
}

// By how many units the coordinates of one axis are shifted; by none where they are wider than the grid.
#[tactic(auto, unfolding(crate::specs::Shift::axis_shift))]
fn axis_shift(unit: Scale, least: i64, most: i64) -> i64
    ensures { result ≡ axis_shift unit least most }
{
    match shift_of(unit, least, most) {
        Some(metres) => in_units(unit, metres),
        None => 0,
    }
}

// By how many units the coordinates of fixes of this extent are shifted.
fn shift_by(unit: Scale, extent: Option<Extent>) -> (i64, i64)
    ensures { result ≡ shift_by unit extent }
{
    match extent {
        Some(extent) => (
            axis_shift(unit, extent.least.0, extent.most.0),
            axis_shift(unit, extent.least.1, extent.most.1),
        ),
        None => (0, 0),
    }
}

/// By how many units the coordinates of a local grid are shifted, east and north: each axis as [`shift_of`] has it of the fixes
/// that are used, no filter leaves out and have metres.
pub fn own_shift(unit: Scale, rows: &[Row]) -> (i64, i64)
    ensures { result ≡ own_shift unit rows.now }
{
    shift_by(unit, extent_of(rows))
}
