// What stays covered where a set grows, for who reads what is promised. The function does nothing and promises the law;
// nobody calls it, since proofs of crates above cite `proofs/ForCallers.antt`.

ghost use Rattle.range_cover.specs.Laws.{CoveredPointsStayCovered};

/// What a polygon covers, that of a larger set covers too. So a flag that says that a point is covered holds on while
/// others are added.
pub fn covered_points_stay_covered()
    ensures { CoveredPointsStayCovered }
{}
