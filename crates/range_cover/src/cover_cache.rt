// Cover flags of points, by a copy of a hull's polygon or by the hull.

ghost use Rattle.std.specs.Prelude.{◌≡◌, None, IfSome, OnOk, map};
ghost use Rattle.range_plane.specs.ConvexCover.{is_covered};
ghost use Rattle.range_cover.specs.CoverCache.{CoverCacheView};

use range_hull::OnlineHull;
use range_lanes::mark_inside;
use range_plane::{Columns, OutOfMemory, Polygon};
use std::alloc::Allocator;
use std::marker::Model;

// The corners that a polygon may have for each point that is flagged at once, for these to be flagged by a copy of it.
// Where there are more, the copy costs more than a search in the hull for each point.
const CORNERS_A_POINT: usize = 4;

/// Gives points their cover flags by a copy of a hull's polygon, which is kept until it is forgotten, or by the hull
/// itself where a copy would be dear.
#[derive(Drop)]
pub struct CoverCache<A: Allocator> {
    copy: Option<Polygon<A>>,
    flags: Vec<bool, A>,
}

impl<A: Allocator> Model for CoverCache<A> {
    ghost use Rattle.range_cover.specs.CoverCache.{CoverCacheView};

    ghost Value = { CoverCacheView };

    ghost view = { λ c. record { copy = c.copy; flags = c.flags.items } };
}

impl<A: Allocator + Copy> CoverCache<A> {
    /// The cache that has no copy of a polygon. It takes no memory.
    pub fn new(alloc: A) -> CoverCache<A>
        ensures { result.copy ≡ None }
    {
        CoverCache {
            copy: None,
            flags: Vec::new(alloc),
        }
    }

    /// Flags which of the points the hull's polygon covers. The polygon is copied where there is no copy yet and it
    /// has few corners, for so many points.
    ///
    /// # Errors
    ///
    /// Where memory runs out for the flags or for the copy. The flags then say nothing.
    pub fn flag<B: Allocator, C: Allocator>(
        &mut self,
        hull: &OnlineHull<B>,
        points: &Columns<C>,
    ) -> Result<(), OutOfMemory>
        requires { IfSome self.old.copy (λ corners. corners ≡ hull.now.corners) }
        ensures copy { IfSome self.new.copy (λ corners. corners ≡ hull.now.corners) }
        ensures flags { OnOk result (self.new.flags
            ≡ map (is_covered hull.now.corners) points.now.points) }
    {
        let corners = hull.corner_count() as usize;
        if self.copy.is_none() && corners / CORNERS_A_POINT > points.len() {
            return self.flag_uncopied(hull, points);
        }
        self.flags.resize(points.len(), false)?;
        let polygon = match self.copy.take() {
            Some(polygon) => polygon,
            None => hull.polygon(*self.flags.allocator())?,
        };
        mark_inside(&polygon, points, &mut self.flags);
        self.copy = Some(polygon);
        Ok(())
    }

    // Flags which of the points the hull's polygon covers, by the hull.
    fn flag_uncopied<B: Allocator, C: Allocator>(
        &mut self,
        hull: &OnlineHull<B>,
        points: &Columns<C>,
    ) -> Result<(), OutOfMemory>
        ensures copy { self.new.copy ≡ self.old.copy }
        ensures flags { OnOk result (self.new.flags
            ≡ map (is_covered hull.now.corners) points.now.points) }
    {
        self.flags.clear();
        self.flags.reserve(points.len())?;
        for i in 0..points.len() {
            self.flags.push_reserved(hull.covers(points.at(i)));
        }
        Ok(())
    }

    /// Whether the polygon covers each of the points that were flagged last.
    pub fn flags(&self) -> &[bool]
        ensures { result.now ≡ self.now.flags }
    {
        self.flags.as_slice()
    }

    /// Drops the copy of a polygon that has changed.
    pub fn forget(&mut self)
        ensures { self.new ≡ record self.old { copy = None } }
    {
        self.copy = None;
    }
}
