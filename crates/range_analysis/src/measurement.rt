// How an animal becomes known by itself: its box, polygon and percent polygons.

ghost use Rattle.std.specs.Prelude.{◌≤◌, IfOk, length};
ghost use Rattle.std.specs.List.{AllZip};
ghost use Rattle.range_plane.specs.Fix.{fix_limit};
ghost use Rattle.range_stats.specs.Percent.{IsPercentRow};
ghost use Rattle.range_analysis.specs.Tracks.{IsMeasuredOf};

use crate::animal::{Animal, Percents};
use crate::measured::Measured;
use crate::track::Track;
use range_estimator::Rows;
use range_lanes::extremes;
use range_options::Levels;
use range_plane::{Columns, OutOfMemory};
use range_stats::Ranking;
use std::alloc::Global;

// The percent polygons of the fixes, in the order of the levels.
fn percent_rows(alloc: Global, fixes: &Columns, levels: &Levels) -> Result<Percents, OutOfMemory>
    requires few { length fixes.now.points ≤ fix_limit }
    ensures { IfOk result (AllZip (IsPercentRow fixes.now.points) levels.now) }
{
    let levels = levels.as_slice();
    let ranking = Ranking::new(alloc, fixes, levels)?;
    let rows = ranking.rows(alloc, levels)?;
    Ok(Percents::new(rows))
}

// What is known of an animal, with percent polygons at the levels.
pub(crate) fn measure(alloc: Global, track: Track, levels: &Levels) -> Result<Measured, OutOfMemory>
    ensures { IfOk result (IsMeasuredOf levels.now track) }
{
    let Track { name, estimator } = track;
    let polygon = estimator.polygon(alloc)?;
    let (rows, fixes) = estimator.into_parts();
    let extent = extremes(&fixes).unwrap();
    let percents = percent_rows(alloc, &fixes, levels)?;
    let rows = Rows::new(rows);
    let animal = Animal {
        name,
        extent,
        rows,
        polygon,
        percents,
    };
    Ok(Measured { animal, fixes })
}
