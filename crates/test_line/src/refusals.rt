// Tests of `open_line` with each allocation refused.

use range_line::open_line;
use test_doubles::{MANY_ALLOCATIONS, Refusing};

// The channel and the list of feeders take memory at least once each.
const LEAST_ALLOCATIONS: u32 = 2;

#[test]
fn open_line_fails_only_at_a_refused_allocation(rt: HostRuntime) {
    for number in 1..MANY_ALLOCATIONS {
        let alloc = Refusing::new(rt.alloc(), number);
        let line = open_line(&alloc, 1, 2, 3, 4);
        assert_eq!(rt;
            alloc.has_refused(),
            line.is_err(),
            "at allocation {number}"
        );
        if let Ok((feeders, _taker)) = line {
            assert_eq!(rt; feeders.len(), 3, "feeders");
            assert!(rt; number > LEAST_ALLOCATIONS, "allocations");
            return;
        }
    }
    assert!(rt; false, "no run without a refusal");
}
