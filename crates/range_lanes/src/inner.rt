// Some corners of a polygon, which are a polygon within it.

ghost use Rattle.std.specs.Prelude.{◌≡◌, ◌<◌, ◌≤◌, Contains, length};
ghost use Rattle.range_lanes.specs.InnerIndices.{index_of};
ghost use Rattle.range_plane.specs.Plane.{Position};
ghost use Rattle.range_plane.specs.Polygon.{IsPolygon};

use range_plane::Point;

// How many corners an inner polygon has. More of them cover more of the polygon, and cost more.
// docs/PERFORMANCE.md has what they cost.
pub(crate) const INNER_CORNERS: usize = 12;

// The index of an inner corner among so many corners, without a product that could be too great.
fn index_of(inner: usize, corners: usize) -> usize
    requires { inner < INNER_CORNERS }
    ensures { result ≡ index_of inner corners }
{
    inner * (corners / INNER_CORNERS) + inner * (corners % INNER_CORNERS) / INNER_CORNERS
}

// Corners of a polygon, the first of them and others spread evenly over it: a polygon within it.
pub(crate) fn inner_of(corners: &[Point]) -> [Point; INNER_CORNERS]
    requires polygon { IsPolygon corners.now corners.now }
    requires many { INNER_CORNERS ≤ length corners.now }
    ensures count { length result ≡ INNER_CORNERS }
    ensures polygon { IsPolygon result result }
    ensures within { (p : Position) → Contains result p → Contains corners.now p }
{
    let mut inner = [corners[0]; INNER_CORNERS];
    for i in 0..INNER_CORNERS {
        inner[i] = corners[index_of(i, corners.len())];
    }
    inner
}
