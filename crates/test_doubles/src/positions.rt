// Points and the positions that they are to have.

use range_plane::Point;

/// For tests alone: whether these points have these positions, in this order.
pub fn are_at(points: &[Point], positions: &[(i64, i64)]) -> bool {
    points.len() == positions.len()
        && points
            .iter()
            .zip(positions)
            .all(|(p, &(e, n))| p.e == e && p.n == n)
}
