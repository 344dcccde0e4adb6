// Rings, point by point.

ghost use Rattle.std.specs.Prelude.{◌≡◌, IfOk, Some, None, if◌then◌else◌};
ghost use Rattle.page_boundary.specs.Points.{place_of};
ghost use Rattle.page_boundary.specs.Rings.{added, places_of};

use crate::lines::RingPoint;
use page_map::Ground;
use std::alloc::{AllocError, Global};

// Adds a point to the last ring, or begins the next; whether its ring is one of these.
pub(crate) fn add_point(
    alloc: Global,
    rings: &mut Vec<Vec<Ground>>,
    point: RingPoint,
) -> Result<bool, AllocError>
    ensures { IfOk result (λ is_added. added (places_of rings.old.items) (point.ring, place_of point.at)
        ≡ (if is_added then Some (places_of rings.new.items) else None)) }
{
    let count = rings.len();
    if point.ring == count as u64 + 1 {
        rings.push(Vec::from_slice(alloc, &[point.at])?)?;
        return Ok(true);
    }
    if count == 0 || point.ring != count as u64 {
        return Ok(false);
    }
    rings[count - 1].push(point.at)?;
    Ok(true)
}
