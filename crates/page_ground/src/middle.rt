// By how much areas on the grid of a UTM zone differ from those on the ellipsoid where animals have their ranges.

use crate::difference::{Difference, Differences, difference_of_utm};
use page_map::{Ground, Plane, Shape, ground_of};
use range_plane::Point;

// The easting of the middle of a zone, in halves of a millimetre.
const MIDDLE: i64 = 1_000_000_000;

// The easting in the middle of the box of a polygon, in halves of a millimetre; none where it has no corner.
fn middle_of(plane: Plane, polygon: &[Point]) -> Option<i64> {
    let mut ends: Option<(i64, i64)> = None;
    for corner in polygon {
        let east = ground_of(plane, *corner).east;
        ends = match ends {
            Some((low, high)) => Some((low.min(east), high.max(east))),
            None => Some((east, east)),
        };
    }
    let (low, high) = ends?;
    Some(low.saturating_add(high))
}

// How far the polygon of the highest level of an animal lies from the middle of a zone, in halves of a millimetre.
fn distance_of(plane: Plane, shape: &Shape) -> Option<u64> {
    let middle = middle_of(plane, shape.polygons.first()?)?;
    Some(middle.abs_diff(MIDDLE))
}

// The least and the greatest distance of animals from the middle of a zone.
fn distances_of(plane: Plane, shapes: &[Shape]) -> Option<(u64, u64)> {
    let mut ends: Option<(u64, u64)> = None;
    for shape in shapes {
        let distance = distance_of(plane, shape)?;
        ends = match ends {
            Some((least, most)) => Some((least.min(distance), most.max(distance))),
            None => Some((distance, distance)),
        };
    }
    ends
}

/// By how much areas on the grid of a UTM zone differ from those on the ellipsoid in the middles of the boxes of ranges, which it does
/// the more, the farther they lie from the middle of the zone. `None` where there is no range, or one is farther from there than
/// 1,000 km.
pub fn differences_of(plane: Plane, shapes: &[Shape]) -> Option<Differences> {
    let (least, most) = distances_of(plane, shapes)?;
    Some(Differences {
        least: difference_of_utm(least)?,
        most: difference_of_utm(most)?,
    })
}
