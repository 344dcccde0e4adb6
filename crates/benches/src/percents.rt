// Percent polygons of 2^20 points.

ghost use Rattle.std.specs.Prelude.{◌≤◌, length};
ghost use Rattle.range_plane.specs.Fix.{fix_limit};

use bench_tracks::{columns_of, walk};
use range_plane::{Columns, FIX_LIMIT, OutOfMemory};
use range_stats::{PercentRow, Ranking};
use std::alloc::Global;
use std::time::Instant;

const ROUNDS: u8 = 5;

const LEVELS: [u8; 3] = [50, 95, 100];

fn percents(alloc: Global, fixes: &Columns) -> Result<Vec<PercentRow>, OutOfMemory>
    requires { length fixes.now.points ≤ fix_limit }
{
    Ranking::new(alloc, fixes, &LEVELS)?.rows(alloc, &LEVELS)
}

/// Times the percent polygons of a walk, at three levels read off one ranking. Prints how many points each level
/// keeps, and how many corners and which doubled area they have, and says how many microseconds the best of a
/// few rounds took.
pub(crate) fn time_percents(rt: &HostRuntime) -> Result<(), anyhow::Error> {
    let fixes = columns_of(rt.alloc(), &walk(rt.alloc())?)?;
    if fixes.len() > FIX_LIMIT as usize {
        return Ok(());
    }
    let mut least = u128::MAX;
    for _ in 0..ROUNDS {
        let start = Instant::now(rt)?;
        percents(rt.alloc(), &fixes)?;
        least = least.min(start.elapsed(rt)?.as_micros());
    }
    for row in percents(rt.alloc(), &fixes)? {
        let PercentRow {
            level,
            kept,
            corners,
            area2,
        } = row;
        println!(rt; "{level},{kept},{corners},{area2}")?;
    }
    eprintln!(rt; "{least}")?;
    Ok(())
}
