// What maps are made of.

ghost use Rattle.std.specs.Prelude.{◌<◌, ◌≤◌, ◌^◌};

use crate::extent::{Extent, joined, widened};
use crate::land::{Ground, Plane, ground_of};
use range_plane::{Point, Scale};
use std::alloc::{AllocError, Global};

/// What is drawn of an animal, in whole units of a report: its number, polygons by their corners, from the highest level on, and
/// fixes, none where they are not known.
#[derive(Drop)]
pub struct Shape {
    pub number: u32,
    pub polygons: Vec<Vec<Point>>,
    pub fixes: Vec<Point>,
}

// What all maps share: the shapes, the box of each, the rings of a boundary and the name of the reference system.
#[derive(Clone, Copy)]
pub(crate) struct Scene<'a> {
    pub alloc: Global,
    pub plane: Plane,
    pub shapes: &'a [Shape],
    pub extents: &'a [Option<Extent>],
    pub boundary: &'a [Vec<Ground>],
    pub system: &'a [u8],
}

// How many millimetres wide and high the box of a frame is at least, since all fixes may lie in one place.
pub(crate) fn least(unit: Scale) -> u64
    ensures some { 0 < result }
    ensures most { result ≤ 2 ^ 43 }
{
    match unit {
        Scale::Metre => 100_000,
        Scale::Decimetre => 10_000,
    }
}

// A box with some points more.
fn with_points(plane: Plane, extent: Option<Extent>, points: &[Point]) -> Option<Extent> {
    let mut whole = extent;
    for point in points {
        whole = widened(whole, ground_of(plane, *point));
    }
    whole
}

// The box of points; none where there is no point.
pub(crate) fn extent_of_points(plane: Plane, points: &[Point]) -> Option<Extent> {
    with_points(plane, None, points)
}

// The box of the polygons and fixes of an animal.
fn extent_of_shape(plane: Plane, shape: &Shape) -> Option<Extent> {
    let mut whole = extent_of_points(plane, &shape.fixes);
    for polygon in &shape.polygons {
        whole = with_points(plane, whole, polygon);
    }
    whole
}

// The box of each animal.
pub(crate) fn extents_of(
    alloc: Global,
    plane: Plane,
    shapes: &[Shape],
) -> Result<Vec<Option<Extent>>, AllocError> {
    let mut extents = Vec::new(alloc);
    for shape in shapes {
        extents.push(extent_of_shape(plane, shape))?;
    }
    Ok(extents)
}

// The box of a ring.
pub(crate) fn extent_of_ring(ring: &[Ground]) -> Option<Extent> {
    let mut whole = None;
    for at in ring {
        whole = widened(whole, *at);
    }
    whole
}

// The box of all rings.
fn extent_of_rings(rings: &[Vec<Ground>]) -> Option<Extent> {
    let mut whole = None;
    for ring in rings {
        whole = joined(whole, extent_of_ring(ring));
    }
    whole
}

impl Scene<'_> {
    // The number of an animal.
    pub(crate) fn number_at(&self, member: usize) -> u64 {
        match self.shapes.get(member) {
            Some(shape) => u64::from(shape.number),
            None => 0,
        }
    }

    // The box of an animal.
    pub(crate) fn extent_at(&self, member: usize) -> Option<Extent> {
        self.extents.get(member).copied().flatten()
    }

    // The box of some animals.
    pub(crate) fn extent_of(&self, members: &[usize]) -> Option<Extent> {
        let mut whole = None;
        for member in members {
            whole = joined(whole, self.extent_at(*member));
        }
        whole
    }

    // A box with the boundary, unless that is more than three times as long.
    pub(crate) fn with_boundary(&self, extent: Extent) -> Extent {
        let Some(rings) = extent_of_rings(self.boundary) else {
            return extent;
        };
        let whole = extent.with(rings);
        if whole.side() <= 3 * extent.side().max(least(self.plane.unit)) {
            whole
        } else {
            extent
        }
    }
}
