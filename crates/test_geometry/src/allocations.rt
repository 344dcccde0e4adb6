// Runs in which each allocation fails in turn.

use std::alloc::Global;
use std::process::Abort;
use test_doubles::Refusing;

// Checks a run with the allocation of this number refused, by how many refusals it saw. Whether it is the last,
// which made more allocations than `least` and had none refused.
pub(crate) fn is_last_run(
    rt: &impl Abort,
    alloc: &Refusing<Global>,
    number: u32,
    refusals: u32,
    least: u32,
) -> bool {
    assert!(rt;
        alloc.has_refused() == (refusals == 1),
        "at allocation {number}"
    );
    assert!(rt; refusals > 0 || number > least, "allocations");
    refusals == 0
}
