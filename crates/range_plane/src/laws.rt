// Laws of what sets cover and of polygons, and the limits as numbers. Each is a function that does nothing and
// promises the law; nobody calls it, since proofs of crates above cite `proofs/ForCallers.antt`.

ghost use Rattle.std.specs.Prelude.{◌≡◌, pos};
ghost use Rattle.range_plane.specs.Laws.{AreasAreNotNegative, BoxesHoldWhatIsCovered, CornersCoverTheSet, CornersStandForTheSet, CoveredIsDecided, CoveredPointsChangeNothing, CoveringIsReaching, CoveringIsTransitive, CoveringMembersAreCorners, EverySetHasAPolygon, LargerSetsCoverMore, ManyCoverTheLeftOfTheirEdges, NoneCoversNothing, OnSegmentIsDecided, OneCoversItself, OnePolygon, PolygonOfItsCorners, SetsCoverTheirMembers, TwoCoverTheirSegment};

use crate::fix::{FIX_LIMIT, SECOND_LIMIT};
use crate::point::COORDINATE_LIMIT;
use crate::scale::METRE_LIMIT;

/// The limits of points and of files, as numbers: definitions take them from the code.
pub fn limits_are_these()
    ensures coordinate { COORDINATE_LIMIT ≡ pos 134217728 }
    ensures metres { METRE_LIMIT ≡ 16777216 }
    ensures seconds { SECOND_LIMIT ≡ 1099511627776 }
    ensures fixes { FIX_LIMIT ≡ 1048576 }
{}

/// A larger set covers all that a smaller one covers.
pub fn larger_sets_cover_more()
    ensures { LargerSetsCoverMore }
{}

/// A set covers each of its members.
pub fn sets_cover_their_members()
    ensures { SetsCoverTheirMembers }
{}

/// A set covers a point exactly where no direction strictly separates the two.
pub fn covering_is_reaching()
    ensures { CoveringIsReaching }
{}

/// A box that has each member of a set has all that the set covers.
pub fn boxes_hold_what_is_covered()
    ensures { BoxesHoldWhatIsCovered }
{}

/// A set that covers each point of another covers all that the other covers.
pub fn covering_is_transitive()
    ensures { CoveringIsTransitive }
{}

/// The test whether a set covers a point is true exactly where it does, and that whether a point is on a
/// segment exactly where it is.
pub fn covered_is_decided()
    ensures set { CoveredIsDecided }
    ensures segment { OnSegmentIsDecided }
{}

/// No corner covers nothing, one covers itself, two cover the segment between them.
pub fn few_cover_little()
    ensures none { NoneCoversNothing }
    ensures one { OneCoversItself }
    ensures two { TwoCoverTheirSegment }
{}

/// A polygon of three or more corners covers what lies on the left of each edge, or on it.
pub fn many_cover_the_left_of_their_edges()
    ensures { ManyCoverTheLeftOfTheirEdges }
{}

/// Every finite set has a polygon.
pub fn every_set_has_a_polygon()
    ensures { EverySetHasAPolygon }
{}

/// No set has two polygons.
pub fn one_polygon()
    ensures { OnePolygon }
{}

/// Members without repeats that cover a set, begin with its least and turn left at every three are its
/// polygon.
pub fn covering_members_are_corners()
    ensures { CoveringMembersAreCorners }
{}

/// A polygon of a set is the polygon of its own corners.
pub fn polygon_of_its_corners()
    ensures { PolygonOfItsCorners }
{}

/// The corners of a set's polygon cover exactly what the set covers.
pub fn corners_cover_the_set()
    ensures { CornersCoverTheSet }
{}

/// A covered point that is added changes no polygon.
pub fn covered_points_change_nothing()
    ensures { CoveredPointsChangeNothing }
{}

/// The corners with a point added have the polygon of the set with that point added.
pub fn corners_stand_for_the_set()
    ensures { CornersStandForTheSet }
{}

/// The doubled area of a polygon is not negative.
pub fn areas_are_not_negative()
    ensures { AreasAreNotNegative }
{}
