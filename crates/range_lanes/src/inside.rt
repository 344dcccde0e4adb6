// Which of many points a polygon covers.

ghost use Rattle.std.specs.Prelude.{◌≡◌, ◌+◌, ◌*◌, ◌<◌, ◌≤◌, ◌^◌, ◌++◌, ℕ, ℤ, Contains, IfSome, Some, count_by, length, map, slice_get, take, true};
ghost use Rattle.std.specs.Simd.Lanes.{chunk};
ghost use Rattle.range_plane.specs.ConvexCover.{is_covered};
ghost use Rattle.range_plane.specs.Plane.{IsInBox, Position};
ghost use Rattle.range_plane.specs.Polygon.{IsPolygon};
ghost use Rattle.range_lanes.specs.Lanes.{is_not_negative};

use crate::corner_box::CornerBox;
use crate::edge_lines::LANE_CORNERS;
use crate::eight::Eight;
use crate::inner::{INNER_CORNERS, inner_of};
use crate::lanes::LANE_COUNT;
use crate::margins::Edges;
use range_plane::{Columns, Point, Polygon};
use std::alloc::Allocator;

// How many groups of eight points the inner polygon may tell nothing of, one after the other, before it is not asked.
const TRIES: u32 = 8;

/// Sets the cover flag of each point, at its index: whether the polygon covers it. Each edge costs a few steps for
/// eight points. Where there are more than twelve corners, a polygon of twelve of them is tried, and each point that it
/// does not cover costs a binary search. So does each of the up to seven points behind the last eight.
pub fn mark_inside<A: Allocator, B: Allocator>(
    corners: &Polygon<A>,
    cols: &Columns<B>,
    flags: &mut [bool],
)
    requires { length flags.old ≡ length cols.now.points }
    ensures { flags.new ≡ map (is_covered corners.now) cols.now.points }
{
    let flagged = flag_groups(corners, cols, flags);
    for i in flagged..cols.len() {
        flags[i] = corners.covers(cols.at(i));
    }
}

/// How many of the points the polygon covers, repeats counted. Each edge costs a few steps for eight points, and eight
/// points that all lie out of the corners' box cost no more than its four sides. Where there are more than twelve
/// corners, a polygon of twelve of them is tried first; where there are more than 36, each point that it does not cover
/// costs a binary search.
pub fn count_inside<A: Allocator, B: Allocator>(corners: &Polygon<A>, cols: &Columns<B>) -> u64
    ensures { result ≡ count_by (is_covered corners.now) cols.now.points }
{
    let (mut count, counted) = count_groups(corners, cols);
    for i in counted..cols.len() {
        count += u64::from(corners.covers(cols.at(i)));
    }
    count
}

// Sets the cover flags of whole groups of eight, and says how many points these are: none where there is no corner.
fn flag_groups<A: Allocator, B: Allocator>(
    polygon: &Polygon<A>,
    cols: &Columns<B>,
    flags: &mut [bool],
) -> usize
    requires { length flags.old ≡ length cols.now.points }
    ensures within { result ≤ length cols.now.points }
    ensures flags { take result flags.new
        ≡ map (is_covered polygon.now) (take result cols.now.points) }
{
    if polygon.corners().len() > INNER_CORNERS {
        flag_by_inner(polygon, cols, flags)
    } else {
        flag_by_edges(polygon.corners(), cols, flags)
    }
}

// Sets the cover flags of the groups, which are held against all edges, and says how many points these are.
fn flag_by_edges<A: Allocator>(corners: &[Point], cols: &Columns<A>, flags: &mut [bool]) -> usize
    requires polygon { IsPolygon corners.now corners.now }
    requires few { length corners.now ≤ LANE_CORNERS }
    requires indices { length flags.old ≡ length cols.now.points }
    ensures within { result ≤ length cols.now.points }
    ensures flags { take result flags.new
        ≡ map (is_covered corners.now) (take result cols.now.points) }
{
    if corners.is_empty() {
        return 0;
    }
    let edges = Edges::of(corners);
    let groups = cols.len() / LANE_COUNT;
    for group in 0..groups {
        let at = LANE_COUNT * group;
        edges
            .margins(&Eight::load(cols, at))
            .flag_not_negative(flags, at);
    }
    LANE_COUNT * groups
}

// Sets the cover flags of all whole groups, and says how many points these are. Most groups of a track lie within the
// inner polygon, which tells that the polygon covers them; where it told of no point in the last groups it is not asked
// again.
fn flag_by_inner<A: Allocator, B: Allocator>(
    polygon: &Polygon<A>,
    cols: &Columns<B>,
    flags: &mut [bool],
) -> usize
    requires many { INNER_CORNERS ≤ length polygon.now }
    requires indices { length flags.old ≡ length cols.now.points }
    ensures within { result ≤ length cols.now.points }
    ensures flags { take result flags.new
        ≡ map (is_covered polygon.now) (take result cols.now.points) }
{
    let taken = inner_of(polygon.corners());
    let inner = Edges::of(&taken);
    let groups = cols.len() / LANE_COUNT;
    let mut tries = TRIES;
    for group in 0..groups {
        let at = LANE_COUNT * group;
        if tries == 0 {
            flag_each(polygon, &[-1; LANE_COUNT], cols, at, flags);
        } else if flag_group(polygon, &inner, cols, at, flags) {
            tries = TRIES;
        } else {
            tries -= 1;
        }
    }
    LANE_COUNT * groups
}

// Sets the cover flags of the eight points from `at` on, by the inner polygon where it covers them all. Says whether it
// covers some.
fn flag_group<A: Allocator, B: Allocator>(
    polygon: &Polygon<A>,
    inner: &Edges,
    cols: &Columns<B>,
    at: usize,
    flags: &mut [bool],
) -> bool
    requires within { (p : Position) → Contains inner.now p → Contains polygon.now p }
    requires room { at + LANE_COUNT ≤ length cols.now.points }
    requires indices { length flags.old ≡ length cols.now.points }
    ensures { take (at + LANE_COUNT) flags.new
        ≡ take at flags.old ++ map (is_covered polygon.now) (chunk at LANE_COUNT cols.now.points) }
{
    let group = Eight::load(cols, at);
    let quick = inner.margins(&group);
    let told = quick.count_not_negative() as usize;
    if told == LANE_COUNT {
        quick.flag_not_negative(flags, at);
        return true;
    }
    flag_each(polygon, &quick.to_array(), cols, at, flags);
    told > 0
}

// Sets the cover flags of the eight points from `at` on. Those whose number is at least 0 are known to be covered, the
// others are searched for.
fn flag_each<A: Allocator, B: Allocator>(
    polygon: &Polygon<A>,
    numbers: &[i64; LANE_COUNT],
    cols: &Columns<B>,
    at: usize,
    flags: &mut [bool],
)
    requires known { (i : ℕ) (number : ℤ) (p : Position) → slice_get numbers.now i ≡ Some number
        → slice_get cols.now.points (at + i) ≡ Some p
        → is_not_negative number ≡ true → is_covered polygon.now p ≡ true }
    requires room { at + LANE_COUNT ≤ length cols.now.points }
    requires indices { length flags.old ≡ length cols.now.points }
    ensures { take (at + LANE_COUNT) flags.new
        ≡ take at flags.old ++ map (is_covered polygon.now) (chunk at LANE_COUNT cols.now.points) }
{
    for i in 0..LANE_COUNT {
        flags[at + i] = is_known_or_covered(polygon, numbers[i], cols.at(at + i));
    }
}

// Whether a polygon covers a point, which is known where the number is at least 0.
fn is_known_or_covered<A: Allocator>(polygon: &Polygon<A>, number: i64, p: Point) -> bool
    requires { is_not_negative number ≡ true → is_covered polygon.now p ≡ true }
    ensures { result ≡ is_covered polygon.now p }
{
    number >= 0 || polygon.covers(p)
}

// How many points of whole groups the polygon covers, and how many points these are: none where there is no corner.
fn count_groups<A: Allocator, B: Allocator>(polygon: &Polygon<A>, cols: &Columns<B>) -> (u64, usize)
    ensures within { result.1 ≤ length cols.now.points }
    ensures count { result.0 ≡ count_by (is_covered polygon.now) (take result.1 cols.now.points) }
{
    if polygon.corners().len() > INNER_CORNERS {
        count_by_inner(polygon, cols)
    } else {
        count_by_edges(polygon.corners(), cols)
    }
}

// The same of few corners.
fn count_by_edges<A: Allocator>(corners: &[Point], cols: &Columns<A>) -> (u64, usize)
    requires polygon { IsPolygon corners.now corners.now }
    requires few { length corners.now ≤ LANE_CORNERS }
    ensures within { result.1 ≤ length cols.now.points }
    ensures count { result.0 ≡ count_by (is_covered corners.now) (take result.1 cols.now.points) }
{
    if corners.is_empty() {
        return (0, 0);
    }
    let around = CornerBox::of(corners);
    let edges = Edges::of(corners);
    let groups = cols.len() / LANE_COUNT;
    let mut count = 0;
    for group in 0..groups {
        count += count_in_box(&edges, &around, &Eight::load(cols, LANE_COUNT * group));
    }
    (count, LANE_COUNT * groups)
}

// How many of eight points the corners cover: none where all of them lie out of the corners' box.
#[inline(always)]
fn count_in_box(edges: &Edges, around: &CornerBox, group: &Eight) -> u64
    requires { (p : Position) → Contains edges.now p → IsInBox around.now.low around.now.high p }
    ensures { result ≡ count_by (is_covered edges.now) group.now }
{
    if around.margins(group).count_not_negative() == 0 {
        return 0;
    }
    u64::from(edges.margins(group).count_not_negative())
}

// How many points of all whole groups the polygon covers, and how many points these are.
fn count_by_inner<A: Allocator, B: Allocator>(
    polygon: &Polygon<A>,
    cols: &Columns<B>,
) -> (u64, usize)
    requires { INNER_CORNERS ≤ length polygon.now }
    ensures within { result.1 ≤ length cols.now.points }
    ensures count { result.0 ≡ count_by (is_covered polygon.now) (take result.1 cols.now.points) }
{
    let corners = polygon.corners();
    let around = CornerBox::of(corners);
    let taken = inner_of(corners);
    let inner = Edges::of(&taken);
    let edges = few_edges(corners);
    let groups = cols.len() / LANE_COUNT;
    let mut count = 0;
    for group in 0..groups {
        let at = LANE_COUNT * group;
        count += count_group(polygon, &around, &inner, edges.as_ref(), cols, at);
    }
    (count, LANE_COUNT * groups)
}

// The edges, where they are few.
fn few_edges(corners: &[Point]) -> Option<Edges<'_>>
    requires polygon { IsPolygon corners.now corners.now }
    requires some { 0 < length corners.now }
    ensures { IfSome result (λ edges. edges ≡ corners.now) }
{
    if corners.len() <= LANE_CORNERS {
        Some(Edges::of(corners))
    } else {
        None
    }
}

// How many of the eight points from `at` on the polygon covers: none where all lie out of its box, all where the inner
// polygon covers them.
fn count_group<A: Allocator, B: Allocator>(
    polygon: &Polygon<A>,
    around: &CornerBox,
    inner: &Edges,
    edges: Option<&Edges>,
    cols: &Columns<B>,
    at: usize,
) -> u64
    requires around { (p : Position) → Contains polygon.now p
        → IsInBox around.now.low around.now.high p }
    requires within { (p : Position) → Contains inner.now p → Contains polygon.now p }
    requires edges { IfSome edges (λ edges. edges.now ≡ polygon.now) }
    requires room { at + LANE_COUNT ≤ length cols.now.points }
    requires fits { at + LANE_COUNT < 2 ^ 64 }
    ensures { result ≡ count_by (is_covered polygon.now) (chunk at LANE_COUNT cols.now.points) }
{
    let group = Eight::load(cols, at);
    if around.margins(&group).count_not_negative() == 0 {
        return 0;
    }
    let within = inner.margins(&group);
    if within.count_not_negative() as usize == LANE_COUNT {
        return LANE_COUNT as u64;
    }
    match edges {
        Some(edges) => u64::from(edges.margins(&group).count_not_negative()),
        None => count_each(polygon, &within.to_array(), cols, at),
    }
}

// How many of the eight points from `at` on the polygon covers. Those whose number is at least 0 are known to be
// covered, the others are searched for.
fn count_each<A: Allocator, B: Allocator>(
    polygon: &Polygon<A>,
    numbers: &[i64; LANE_COUNT],
    cols: &Columns<B>,
    at: usize,
) -> u64
    requires known { (i : ℕ) (number : ℤ) (p : Position) → slice_get numbers.now i ≡ Some number
        → slice_get cols.now.points (at + i) ≡ Some p
        → is_not_negative number ≡ true → is_covered polygon.now p ≡ true }
    requires room { at + LANE_COUNT ≤ length cols.now.points }
    requires fits { at + LANE_COUNT < 2 ^ 64 }
    ensures { result ≡ count_by (is_covered polygon.now) (chunk at LANE_COUNT cols.now.points) }
{
    let mut count = 0;
    for index in 0..LANE_COUNT {
        let p = cols.at(at + index);
        count += u64::from(is_known_or_covered(polygon, numbers[index], p));
    }
    count
}
