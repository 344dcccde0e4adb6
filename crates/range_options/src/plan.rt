// How files are followed.

ghost use Rattle.std.specs.Prelude.{◌≡◌, IfSome, IsSome, ◌↔◌};
ghost use Rattle.range_options.specs.Plan.{IsPlan};

use crate::limits::{BLOCK_LIMIT, DEPTH_LIMIT, WORKER_LIMIT};
use range_plane::Scale;

/// How files are followed: how many fixes a block has at most, how many messages a line holds at most, how
/// many workers there are, each with a line of its own, and the unit of the files' coordinates.
#[derive(Clone, Copy)]
pub struct Plan {
    pub block: u32,
    pub depth: u32,
    pub workers: u32,
    pub unit: Scale,
    pub ghost within: { IsPlan block depth workers },
}

impl Plan {
    /// The plan with 1 to [`BLOCK_LIMIT`](crate::BLOCK_LIMIT) fixes in a block, lines of 1 to
    /// [`DEPTH_LIMIT`](crate::DEPTH_LIMIT) messages, 1 to [`WORKER_LIMIT`](crate::WORKER_LIMIT) workers and
    /// coordinates in this unit; `None` where one of the numbers is outside its limits.
    pub fn new(block: u32, depth: u32, workers: u32, unit: Scale) -> Option<Plan>
        ensures limits { IsSome result ↔ IsPlan block depth workers }
        ensures value { IfSome result (λ plan. (plan.block ≡ block) × (plan.depth ≡ depth)
            × (plan.workers ≡ workers) × (plan.unit ≡ unit)) }
    {
        if (1..=BLOCK_LIMIT).contains(&block)
            && (1..=DEPTH_LIMIT).contains(&depth)
            && (1..=WORKER_LIMIT).contains(&workers)
        {
            Some(Plan {
                block,
                depth,
                workers,
                unit,
            })
        } else {
            None
        }
    }
}
