// The fix without which the polygon of all others is least.

ghost use Rattle.std.specs.Prelude.{◌≤◌, ◌<◌, IfOk, length};
ghost use Rattle.range_plane.specs.Fix.{fix_limit};
ghost use Rattle.page_influence.specs.Influence.{IsInfluence};
ghost use Rattle.page_influence.specs.Layers.{IsFirstLeast};

use crate::areas::areas_without;
use range_plane::{Columns, OutOfMemory};
use std::alloc::Global;

/// A fix by its index, and the doubled area of the polygon of all other fixes.
#[derive(Clone, Copy, PartialEq, Eq, Debug)]
pub struct Influence {
    pub index: usize,
    pub area2: u128,
}

// The first of the least areas.
fn first_least(areas: &[u128]) -> Influence
    requires { 0 < length areas.now }
    ensures { IsFirstLeast areas.now result }
{
    let mut least = Influence {
        index: 0,
        area2: areas[0],
    };
    for (index, area2) in areas.iter().enumerate() {
        if *area2 < least.area2 {
            least = Influence {
                index,
                area2: *area2,
            };
        }
    }
    least
}

/// The fix without which the polygon of all others is least, of several the first; `None` where there are fewer than two
/// fixes.
///
/// It takes two passes over the fixes, one more for each corner of their polygon, and for each corner the polygon of all
/// other corners and of those within. So the steps rise with the square of the number of corners: who takes points from a
/// stranger asks first how many there are.
pub fn least_without(alloc: Global, points: &Columns) -> Result<Option<Influence>, OutOfMemory>
    requires { length points.now.points ≤ fix_limit }
    ensures { IfOk result (IsInfluence points.now.points) }
{
    if points.len() < 2 {
        return Ok(None);
    }
    let areas = areas_without(alloc, points)?;
    Ok(Some(first_least(&areas)))
}
