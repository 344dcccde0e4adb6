// What the map draws of an animal.

ghost use Rattle.std.specs.Prelude.{◌≡◌, ◌≤◌, IfErr, IfOk, length};
ghost use Rattle.std.specs.List.{AllZip};
ghost use Rattle.range_fixes.specs.Reading.{reading};
ghost use Rattle.range_plane.specs.Fix.{fix_limit};
ghost use Rattle.range_plane.specs.Polygon.{IsPolygon};
ghost use Rattle.range_plane.specs.Row.{points_of};
ghost use Rattle.page_levels.specs.Drawn.{IsDrawn};
ghost use Rattle.page_levels.specs.Kept.{first_kept};
ghost use Rattle.page_levels.specs.Same.{IsRefused, IsSame};

use crate::check::check_fixes;
use crate::fault::LevelFault;
use crate::kept::{polygon_at, ranked_points};
use crate::percents::check_percents;
use crate::track::fixes_of;
use page_report::ReadAnimal;
use range_plane::{Fix, OutOfMemory, Point, Scale};
use std::alloc::{AllocError, Global};

/// What the map draws of an animal, in whole units of the report: polygons by their corners, counterclockwise from the
/// westernmost, of two such the southern, and the fixes in their order.
#[derive(Drop)]
pub struct Drawn {
    pub polygons: Vec<Vec<Point>>,
    pub fixes: Vec<Point>,
}

// The polygon at each level, of points by their distance from the mean of all.
fn polygons_of(
    alloc: Global,
    ranked: &[Point],
    levels: &[u8],
) -> Result<Vec<Vec<Point>>, OutOfMemory>
    requires { length ranked.now ≤ fix_limit }
    ensures { IfOk result (λ polygons. AllZip (λ level polygon. IsPolygon (first_kept ranked.now level) polygon.items) levels.now polygons.items) }
{
    let mut polygons = Vec::new(alloc);
    for level in levels {
        let polygon = polygon_at(alloc, ranked, *level)?;
        polygons.push(Vec::from_slice(alloc, polygon.corners())?)?;
    }
    Ok(polygons)
}

// The points of fixes.
fn points_of(alloc: Global, fixes: &[Fix]) -> Result<Vec<Point>, AllocError>
    ensures { IfOk result (λ points. points.items ≡ points_of fixes.now) }
{
    fixes.iter().map(|fix| fix.at).collect(alloc)
}

/// The fixes of a track, and for each level the polygon of the fixes that it keeps: so many per cent, rounded up, of those nearest
/// to the mean of all. The levels stand from the highest on; 100 keeps all. The track is a file of `homerange` whose coordinates
/// are in `unit`, and `animal` is what the report says of it.
///
/// # Errors
///
/// The track cannot be read, or the report says of the animal anything that its track does not say; or memory ran out.
pub fn levels_of(
    alloc: Global,
    track: &[u8],
    unit: Scale,
    animal: &ReadAnimal,
    levels: &[u8],
) -> Result<Drawn, LevelFault>
    ensures same { IfOk result (λ drawn. IsSame animal.now (reading unit track.now)) }
    ensures drawn { IfOk result (IsDrawn (points_of (reading unit track.now).fixes) levels.now) }
    ensures fault { IfErr result (IsRefused animal.now (reading unit track.now)) }
{
    let fixes = fixes_of(alloc, track, unit, &animal.name)?;
    let points = check_fixes(alloc, &fixes, animal)?;
    let ranked = ranked_points(alloc, &points)?;
    check_percents(alloc, &ranked, &animal.percents)?;
    Ok(Drawn {
        polygons: polygons_of(alloc, &ranked, levels)?,
        fixes: points_of(alloc, &fixes)?,
    })
}
