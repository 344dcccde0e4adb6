// Tests of maps.

use crate::shapes::{Drawn, FAR, FAR_MAPS, FAR_RING, NEAR, NEAR_MAPS, NEAR_RING};
use page_map::{Ground, Maps, Plane, Shape, draw_maps};
use range_plane::{Point, Scale};
use std::alloc::{AllocError, Global};

// Points of the plane.
fn points(alloc: Global, places: &[(i64, i64)]) -> Result<Vec<Point>, AllocError> {
    let mut points = Vec::new(alloc);
    for (easting, northing) in places {
        if let Some(point) = Point::new(*easting, *northing) {
            points.push(point)?;
        }
    }
    Ok(points)
}

// The polygons of an animal.
fn polygons(alloc: Global, drawn: &Drawn) -> Result<Vec<Vec<Point>>, AllocError> {
    let mut polygons = Vec::new(alloc);
    for corners in drawn.polygons {
        polygons.push(points(alloc, corners)?)?;
    }
    Ok(polygons)
}

// What is drawn of animals.
fn shapes(alloc: Global, animals: &[Drawn]) -> Result<Vec<Shape>, AllocError> {
    let mut shapes = Vec::new(alloc);
    for drawn in animals {
        shapes.push(Shape {
            number: drawn.number,
            polygons: polygons(alloc, drawn)?,
            fixes: points(alloc, drawn.fixes)?,
        })?;
    }
    Ok(shapes)
}

// A boundary of one ring.
fn boundary(alloc: Global, places: &[(i64, i64)]) -> Result<Vec<Vec<Ground>>, AllocError> {
    let mut ring = Vec::new(alloc);
    for (east, north) in places {
        if let Some(at) = Ground::new(*east, *north) {
            ring.push(at)?;
        }
    }
    let mut rings = Vec::new(alloc);
    rings.push(ring)?;
    Ok(rings)
}

// The maps of animals with a boundary.
fn maps(
    alloc: Global,
    animals: &[Drawn],
    plane: Plane,
    ring: &[(i64, i64)],
) -> Result<Maps, AllocError> {
    let shapes = shapes(alloc, animals)?;
    draw_maps(alloc, &shapes, plane, &boundary(alloc, ring)?, b"A & B")
}

#[test]
fn ranges_near_each_other_have_one_map(rt: HostRuntime) {
    let plane = Plane {
        unit: Scale::Metre,
        east: 0,
        north: 0,
    };
    let Ok(maps) = maps(rt.alloc(), &NEAR, plane, &NEAR_RING) else {
        assert!(rt; false, "there is memory");
        return;
    };
    assert!(rt;
        maps.drawings.as_slice() == NEAR_MAPS.as_bytes(),
        "{NEAR_MAPS}"
    );
    assert!(rt; maps.unseen.is_empty(), "all are seen");
    assert!(rt; maps.has_boundary, "so is the boundary");
}

#[test]
fn groups_that_are_too_small_have_their_own(rt: HostRuntime) {
    let plane = Plane {
        unit: Scale::Decimetre,
        east: 300_000,
        north: -20,
    };
    let Ok(maps) = maps(rt.alloc(), &FAR, plane, &FAR_RING) else {
        assert!(rt; false, "there is memory");
        return;
    };
    assert!(rt;
        maps.drawings.as_slice() == FAR_MAPS.as_bytes(),
        "{FAR_MAPS}"
    );
    assert!(rt; maps.unseen.as_slice() == [3].as_slice(), "one is not seen");
    assert!(rt; !maps.has_boundary, "nor is the boundary");
}

#[test]
fn where_there_is_no_point_there_is_no_map(rt: HostRuntime) {
    let plane = Plane {
        unit: Scale::Metre,
        east: 0,
        north: 0,
    };
    let Ok(maps) = maps(rt.alloc(), &[], plane, &NEAR_RING) else {
        assert!(rt; false, "there is memory");
        return;
    };
    assert!(rt; maps.drawings.is_empty(), "nothing is drawn");
}
