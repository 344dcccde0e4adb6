// The two edges of a polygon that a point falls between, by binary search.

ghost use Rattle.std.specs.Prelude.{◌≡◌, ◌<◌, if◌then◌else◌, pos, ◌≤ℤ◌, ◌↔◌, IsTrue, length};
ghost use Rattle.range_plane.specs.ConvexCover.{is_covered};
ghost use Rattle.range_plane.specs.Edges.{at, next, IsTop, Spans};
ghost use Rattle.range_plane.specs.Plane.{turn, IsBefore};
ghost use Rattle.range_plane.specs.Polygon.{IsPolygon};

use crate::order::comes_before;
use crate::point::{Point, turn};

// `count` where it is wanted, else 0, made without a branch: every second branch of a search would be
// predicted wrong.
#[inline(always)]
fn count_if(wanted: bool, count: usize) -> usize
    ensures { result ≡ (if wanted then count else 0) }
{
    count * usize::from(wanted)
}

// The indices of the two edges that span `q`: one before `top`, and one from `top` on, which may be the
// closing edge. The searches for them take turns, so that neither waits for the other.
fn spanning_edges(corners: &[Point], top: usize, q: Point) -> (usize, usize)
    requires polygon { IsPolygon corners.now corners.now }
    requires top { IsTop corners.now top }
    requires some { 0 < length corners.now }
    requires first { IsBefore (at corners.now 0) q }
    requires last { IsBefore q (at corners.now top) }
    ensures within { (result.0 < length corners.now) × (result.1 < length corners.now) }
    ensures lower { Spans (at corners.now result.0) (next corners.now result.0) q }
    ensures upper { Spans (next corners.now result.1) (at corners.now result.1) q }
{
    let mut lower = 0;
    let mut lower_size = top;
    let mut upper = top;
    let mut upper_size = corners.len() - top;
    while lower_size > 1 || upper_size > 1 {
        let half = lower_size / 2;
        lower += count_if(comes_before(corners[lower + half], q), half);
        lower_size -= half;
        let half = upper_size / 2;
        upper += count_if(comes_before(q, corners[upper + half]), half);
        upper_size -= half;
    }
    (lower, upper)
}

// The index of the easternmost corner, of two such the northern.
pub(crate) fn easternmost(corners: &[Point]) -> usize
    requires { IsPolygon corners.now corners.now }
    ensures { IsTop corners.now result }
{
    if corners.len() < 2 {
        return 0;
    }
    let mut low = 1;
    let mut high = corners.len() - 1;
    while low < high {
        let middle = low + (high - low) / 2;
        if comes_before(corners[middle], corners[middle + 1]) {
            low = middle + 1;
        } else {
            high = middle;
        }
    }
    low
}

// The corner after the one at `index`, the first after the last.
fn next(corners: &[Point], index: usize) -> Point
    requires { index < length corners.now }
    ensures { result ≡ next corners.now index }
{
    if index + 1 < corners.len() {
        corners[index + 1]
    } else {
        corners[0]
    }
}

// Whether `q` is on the left of the edge from the corner at `index` to the next, or on it.
fn is_left_of_edge(corners: &[Point], index: usize, q: Point) -> bool
    requires { index < length corners.now }
    ensures { IsTrue result ↔ (pos 0 ≤ℤ turn (at corners.now index) (next corners.now index) q) }
{
    turn(corners[index], next(corners, index), q) >= 0
}

// Whether the polygon covers `q`, which comes after its first corner and before the one at `top`.
fn is_left_of_both(corners: &[Point], top: usize, q: Point) -> bool
    requires polygon { IsPolygon corners.now corners.now }
    requires top { IsTop corners.now top }
    requires some { 0 < length corners.now }
    requires first { IsBefore (at corners.now 0) q }
    requires last { IsBefore q (at corners.now top) }
    ensures { result ≡ is_covered corners.now q }
{
    let (lower, upper) = spanning_edges(corners, top, q);
    is_left_of_edge(corners, lower, q) && is_left_of_edge(corners, upper, q)
}

// Whether the polygon, whose last corner in order is at `top`, covers `q`.
pub(crate) fn covers(corners: &[Point], top: usize, q: Point) -> bool
    requires polygon { IsPolygon corners.now corners.now }
    requires top { IsTop corners.now top }
    ensures { result ≡ is_covered corners.now q }
{
    if corners.is_empty() {
        return false;
    }
    let least = corners[0];
    if !comes_before(least, q) {
        return !comes_before(q, least);
    }
    let greatest = corners[top];
    if !comes_before(q, greatest) {
        return !comes_before(greatest, q);
    }
    is_left_of_both(corners, top, q)
}
