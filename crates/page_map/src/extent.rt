// Boxes of the ground.

ghost use Rattle.std.specs.Prelude.{◌≤◌, ◌^◌};
ghost use Rattle.page_drawing.specs.Bounds.{IsWithin};

use crate::land::Ground;

// The box from a southwestern corner to a northeastern one.
#[derive(Clone, Copy)]
pub(crate) struct Extent {
    pub low: Ground,
    pub high: Ground,
}

// The lesser and the greater of two coordinates.
fn lesser(one: i64, other: i64) -> i64
    requires one { IsWithin (2 ^ 42) one }
    requires other { IsWithin (2 ^ 42) other }
    ensures { IsWithin (2 ^ 42) result }
{
    if one < other { one } else { other }
}

fn greater(one: i64, other: i64) -> i64
    requires one { IsWithin (2 ^ 42) one }
    requires other { IsWithin (2 ^ 42) other }
    ensures { IsWithin (2 ^ 42) result }
{
    if one < other { other } else { one }
}

// How far it is from a coordinate to a greater one.
fn gap(low: i64, high: i64) -> u64
    requires low { IsWithin (2 ^ 42) low }
    requires high { IsWithin (2 ^ 42) high }
    ensures { result ≤ 2 ^ 43 }
{
    if low < high { (high - low) as u64 } else { 0 }
}

// The southwestern corner of the box of two points, and its northeastern one.
fn southwest(one: Ground, other: Ground) -> Ground {
    Ground {
        east: lesser(one.east, other.east),
        north: lesser(one.north, other.north),
    }
}

fn northeast(one: Ground, other: Ground) -> Ground {
    Ground {
        east: greater(one.east, other.east),
        north: greater(one.north, other.north),
    }
}

// A box with a point more.
pub(crate) fn widened(extent: Option<Extent>, at: Ground) -> Option<Extent> {
    let (low, high) = match extent {
        Some(own) => (southwest(own.low, at), northeast(own.high, at)),
        None => (at, at),
    };
    Some(Extent { low, high })
}

impl Extent {
    // The box of this and another.
    pub(crate) fn with(self, other: Extent) -> Extent {
        Extent {
            low: southwest(self.low, other.low),
            high: northeast(self.high, other.high),
        }
    }

    pub(crate) fn width(&self) -> u64
        ensures { result ≤ 2 ^ 43 }
    {
        gap(self.low.east, self.high.east)
    }

    pub(crate) fn height(&self) -> u64
        ensures { result ≤ 2 ^ 43 }
    {
        gap(self.low.north, self.high.north)
    }

    // The sums of the coordinates of both corners: twice those of the middle.
    pub(crate) fn middle_east(&self) -> i64
        ensures { IsWithin (2 ^ 43) result }
    {
        self.low.east + self.high.east
    }

    pub(crate) fn middle_north(&self) -> i64
        ensures { IsWithin (2 ^ 43) result }
    {
        self.low.north + self.high.north
    }

    // The longer side.
    pub(crate) fn side(&self) -> u64
        ensures { result ≤ 2 ^ 43 }
    {
        self.width().max(self.height())
    }
}

// Both boxes, where there are two.
pub(crate) fn joined(one: Option<Extent>, other: Option<Extent>) -> Option<Extent> {
    match (one, other) {
        (Some(one), Some(other)) => Some(one.with(other)),
        (Some(one), None) => Some(one),
        (None, other) => other,
    }
}
