// What lines are followed with.

use range_options::Plan;
use std::alloc::Global;

/// What lines are followed with: the runtime, the allocator of lines, estimators and results, that of readers
/// and blocks, the gate that hears of messages, and the plan.
#[derive(Drop)]
pub(crate) struct Context<'c, R, A, G> {
    pub rt: &'c R,
    pub alloc: A,
    pub global: Global,
    pub gate: &'c G,
    pub plan: Plan,
}
