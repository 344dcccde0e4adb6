// The fixes that stand for the corners of a polygon.

ghost use Rattle.std.specs.Prelude.{ℕ, ◌≡◌, ◌≤◌, ◌<◌, Contains, IfOk, length, slice_index};
ghost use Rattle.range_plane.specs.Edges.{at};
ghost use Rattle.range_plane.specs.Fix.{fix_limit};
ghost use Rattle.range_plane.specs.Plane.{Position};
ghost use Rattle.page_influence.specs.Layers.{AreCornerFixes, AreFlags};

use range_plane::{Columns, Point};
use std::alloc::{AllocError, Global};

// The index of the first fix at a corner.
fn first_at(points: &Columns, corner: Point) -> usize
    requires few { length points.now.points ≤ fix_limit }
    requires there { Contains points.now.points corner }
    ensures within { result < length points.now.points }
    ensures there { at points.now.points result ≡ corner }
{
    let mut index = 0;
    while points.at(index) != corner {
        index += 1;
    }
    index
}

// For each corner the index of the first fix there.
pub(crate) fn corner_fixes(
    alloc: Global,
    points: &Columns,
    corners: &[Point],
) -> Result<Vec<usize>, AllocError>
    requires few { length points.now.points ≤ fix_limit }
    requires there { (p : Position) → Contains corners.now p → Contains points.now.points p }
    ensures { IfOk result (λ fixes. AreCornerFixes points.now.points corners.now fixes.items) }
{
    let mut fixes = Vec::new(alloc);
    for corner in corners {
        fixes.push(first_at(points, *corner))?;
    }
    Ok(fixes)
}

// Whether each of so many fixes is one of these.
pub(crate) fn flags_of(
    alloc: Global,
    count: usize,
    fixes: &[usize],
) -> Result<Vec<bool>, AllocError>
    requires { (k : ℕ) → k < length fixes.now → slice_index fixes.now k < count }
    ensures { IfOk result (λ flags. AreFlags count fixes.now flags.items) }
{
    let mut flags = Vec::new(alloc);
    flags.resize(count, false)?;
    for fix in fixes {
        flags[*fix] = true;
    }
    Ok(flags)
}
