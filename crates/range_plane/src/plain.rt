// The corners of a set, straight from the definitions.

ghost use Rattle.std.specs.Prelude.{ℕ, ◌≡◌, ◌<◌, ◌≤◌, ◌≤ℤ◌, ◌<ℤ◌, int_le, int_lt, pos, IfOk, IfSome, IsNone, [], length};
ghost use Rattle.range_plane.specs.ConvexCover.{is_covered, is_in_triangle, is_on_segment};
ghost use Rattle.range_plane.specs.Edges.{at};
ghost use Rattle.range_plane.specs.Plane.{turn};
ghost use Rattle.range_plane.specs.Polygon.{IsLeast, IsPolygon, any_other, without};

use crate::memory::OutOfMemory;
use crate::order::comes_before;
use crate::point::{Point, scalar_product, turn};
use std::alloc::Allocator;

// Whether `q` lies on the segment from `a` to `b`.
fn is_on_segment(q: Point, a: Point, b: Point) -> bool
    ensures { result ≡ is_on_segment q a b }
{
    turn(a, b, q) == 0 && scalar_product(q, a, b) <= 0
}

// Whether `q` lies on the left of the edge from `a` to `b`, or in line with it.
fn is_left(a: Point, b: Point, q: Point) -> bool
    ensures { result ≡ int_le (pos 0) (turn a b q) }
{
    turn(a, b, q) >= 0
}

// Whether `a`, `b`, `c` go counterclockwise.
fn turns_left(a: Point, b: Point, c: Point) -> bool
    ensures { result ≡ int_lt (pos 0) (turn a b c) }
{
    turn(a, b, c) > 0
}

// Whether `q` lies in the triangle `a`, `b`, `c`, which goes counterclockwise.
fn is_in_triangle(q: Point, a: Point, b: Point, c: Point) -> bool
    ensures { result ≡ is_in_triangle q a b c }
{
    turns_left(a, b, c) && is_left(a, b, q) && is_left(b, c, q) && is_left(c, a, q)
}

// Whether `q` lies on a segment from `a` to a point other than `q`.
fn is_on_segment_from(points: &[Point], q: Point, a: Point) -> bool
    ensures { result ≡ any_other q (λ b. is_on_segment q a b) points.now }
{
    points.iter().any(|b| *b != q && is_on_segment(q, a, *b))
}

// Whether `q` lies on a segment between two other points.
fn is_on_some_segment(points: &[Point], q: Point) -> bool
    ensures { result ≡ any_other q
        (λ a. any_other q (λ b. is_on_segment q a b) points.now) points.now }
{
    points
        .iter()
        .any(|a| *a != q && is_on_segment_from(points, q, *a))
}

// Whether `q` lies in a triangle of `a`, `b` and a point other than `q`.
fn is_in_triangle_on(points: &[Point], q: Point, a: Point, b: Point) -> bool
    ensures { result ≡ any_other q (λ c. is_in_triangle q a b c) points.now }
{
    points
        .iter()
        .any(|c| *c != q && is_in_triangle(q, a, b, *c))
}

// Whether `q` lies in a triangle of `a` and two other points than `q`.
fn is_in_triangle_from(points: &[Point], q: Point, a: Point) -> bool
    ensures { result ≡ any_other q
        (λ b. any_other q (λ c. is_in_triangle q a b c) points.now) points.now }
{
    points
        .iter()
        .any(|b| *b != q && is_in_triangle_on(points, q, a, *b))
}

// Whether `q` lies in a triangle of three other points.
fn is_in_some_triangle(points: &[Point], q: Point) -> bool
    ensures { result ≡ any_other q (λ a. any_other q (λ b. any_other q (λ c. is_in_triangle q a b c)
        points.now) points.now) points.now }
{
    points
        .iter()
        .any(|a| *a != q && is_in_triangle_from(points, q, *a))
}

// Whether the set of the points without `q` covers `q`.
fn is_covered_by_others(points: &[Point], q: Point) -> bool
    ensures { result ≡ is_covered (without q points.now) q }
{
    is_on_some_segment(points, q) || is_in_some_triangle(points, q)
}

// The first point by easting and then by northing.
fn least_of(points: &[Point]) -> Option<Point>
    ensures none { IsNone result → points.now ≡ [] }
    ensures least { IfSome result (IsLeast points.now) }
{
    let mut least = *points.first()?;
    for p in points {
        if comes_before(*p, least) {
            least = *p;
        }
    }
    Some(least)
}

// The index at which `p` goes into corners that go counterclockwise round the first of them.
fn index_round(corners: &[Point], p: Point) -> usize
    requires { 0 < length corners.now }
    ensures within { (0 < result) × (result ≤ length corners.now) }
    ensures before { (k : ℕ) → 0 < k → k < result
        → pos 0 <ℤ turn (at corners.now 0) (at corners.now k) p }
    ensures here { result < length corners.now
        → turn (at corners.now 0) (at corners.now result) p ≤ℤ pos 0 }
{
    let mut index = 1;
    while index < corners.len() && turn(corners[0], corners[index], p) > 0 {
        index += 1;
    }
    index
}

// The corners of the polygon of the set of the points.
pub(crate) fn corners_of<A: Allocator>(
    alloc: A,
    points: &[Point],
) -> Result<Vec<Point, A>, OutOfMemory>
    ensures { IfOk result (λ corners. IsPolygon points.now corners.items) }
{
    let mut corners = Vec::new(alloc);
    let Some(least) = least_of(points) else {
        return Ok(corners);
    };
    corners.push(least)?;
    for p in points {
        if !corners.contains(p) && !is_covered_by_others(points, *p) {
            let index = index_round(&corners, *p);
            corners.insert(index, *p)?;
        }
    }
    Ok(corners)
}
