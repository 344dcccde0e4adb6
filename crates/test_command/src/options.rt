// The options of a run, and those that it has by itself.

use range_options::{Levels, Options, Plan};
use range_plane::Scale;
use std::alloc::Global;
use std::test::Fail;

/// What a run has whose words say nothing of it: levels, and a plan; and the levels and the unit as words.
pub(crate) const LEVELS: [u8; 3] = [50, 95, 100];

pub(crate) const PLAN: (u32, u32, u32) = (256, 4, 2);

pub(crate) const LEVELS_WORD: &[u8] = b"50,95,100";

pub(crate) const UNIT_WORD: &[u8] = b"m";

/// Options with these levels, with a plan of blocks, depth and workers, and with this unit.
pub(crate) fn options_of(
    alloc: Global,
    levels: &[u8],
    plan: (u32, u32, u32),
    unit: Scale,
) -> Result<Options, Fail> {
    let (block, depth, workers) = plan;
    let plan = Plan::new(block, depth, workers, unit).ok_or("no plan")?;
    let levels = Vec::from_slice(alloc, levels)?;
    let levels = Levels::new(levels).ok_or("no levels")?;
    Ok(Options { levels, plan })
}
