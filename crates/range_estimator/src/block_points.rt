// The points of a block of fixes.

ghost use Rattle.std.specs.Prelude.{◌≡◌, OnOk};
ghost use Rattle.range_plane.specs.Row.{points_of};

use range_plane::{Columns, Fix, OutOfMemory};
use std::alloc::Allocator;

// Puts the points of a block in place of others.
pub(crate) fn load<A: Allocator>(points: &mut Columns<A>, block: &[Fix]) -> Result<(), OutOfMemory>
    ensures { OnOk result (points.new.points ≡ points_of block.now) }
{
    points.clear();
    points.reserve(block.len())?;
    for fix in block {
        points.push_reserved(fix.at);
    }
    Ok(())
}
