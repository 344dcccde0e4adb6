// Tests of the test whether points are corners in their order.

use crate::points::{parabola, points_of};
use range_plane::are_corners;
use std::alloc::Global;
use std::process::Abort;
use std::test::Fail;

// Checks whether the points of each case are corners.
fn expect_corners(
    rt: &impl Abort,
    alloc: Global,
    cases: &[(&[(i64, i64)], &str)],
    are: bool,
) -> Result<(), Fail> {
    for &(positions, name) in cases {
        let points = points_of(alloc, positions)?;
        assert!(rt; are_corners(&points) == are, "{name}");
    }
    Ok(())
}

#[test]
fn corners_in_order_are_corners(rt: HostRuntime) -> Result<(), Fail> {
    let cases = [
        ([].as_slice(), "none"),
        (&[(4, 0)], "one"),
        (&[(0, 3), (4, 0)], "two"),
        (&[(0, 0), (4, 0), (4, 4), (0, 4)], "a square"),
        (&[(0, 1), (1, 0), (3, 0), (4, 2), (2, 4)], "a pentagon"),
    ];
    expect_corners(&rt, rt.alloc(), &cases, true)
}

#[test]
fn points_in_another_order_or_in_line_are_no_corners(rt: HostRuntime) -> Result<(), Fail> {
    let cases = [
        ([(4, 0), (0, 3)].as_slice(), "two from the east"),
        (&[(0, 3), (0, 3)], "one twice"),
        (&[(0, 0), (0, 4), (4, 4), (4, 0)], "clockwise"),
        (&[(4, 0), (4, 4), (0, 4), (0, 0)], "begun late"),
        (&[(0, 0), (4, 0), (4, 0), (4, 4), (0, 4)], "a corner twice"),
        (&[(0, 0), (4, 0), (4, 4), (0, 4), (0, 0)], "the first again"),
        (
            &[(0, 0), (2, 0), (4, 0), (4, 4), (0, 4)],
            "on the first edge",
        ),
        (&[(0, 0), (4, 0), (4, 2), (4, 4), (0, 4)], "on a later edge"),
        (
            &[(0, 0), (4, 0), (4, 4), (0, 4), (0, 2)],
            "on the last edge",
        ),
        (&[(0, 0), (4, 0), (3, 2), (4, 4), (0, 4)], "a dent"),
        (&[(0, 1), (3, 0), (2, 4), (1, 0), (4, 2)], "a pentagram"),
    ];
    expect_corners(&rt, rt.alloc(), &cases, false)
}

#[test]
fn a_parabola_of_many_points_is_all_corners(rt: HostRuntime) -> Result<(), Fail> {
    let points = parabola(rt.alloc(), 4096)?;
    assert_eq!(rt; points.len(), 4096);
    assert!(rt; are_corners(&points));
    Ok(())
}
