// Tests of failed allocations.

use crate::allocations::is_last_run;
use range_pieces::{PIECE_SIZE, PointList};
use range_plane::{FIX_LIMIT, Point};
use std::alloc::Allocator;
use std::process::Abort;
use test_doubles::{MANY_ALLOCATIONS, Refusing};

// Two lists of pieces, and ten pieces.
const LEAST_ALLOCATIONS: u32 = 12;

// Makes room for a point, puts it at the end, and makes more room, each again where it is refused. How often it was
// refused.
fn reserve_twice<A: Allocator + Copy>(rt: &impl Abort, alloc: A) -> u32 {
    let mut chain = PointList::new(alloc);
    let mut refusals = 0u32;
    if chain.reserve(1).is_err() {
        refusals = refusals.wrapping_add(1);
        assert!(rt; chain.len() == 0 && chain.spare() == 0, "still empty");
        assert!(rt; chain.reserve(1).is_ok(), "again");
    }
    if chain.spare() > 0 {
        let end = chain.end();
        chain.replace_run(end, end, Point { e: 1, n: 2 });
    }
    if chain.reserve(1200).is_err() {
        refusals = refusals.wrapping_add(1);
        assert!(rt;
            chain.len() == 1 && chain.piece_count() == 1,
            "still one point"
        );
        assert!(rt; chain.reserve(1200).is_ok(), "again");
    }
    assert!(rt; chain.spare() >= 1200, "room");
    assert!(rt; chain.len() == 1, "in the end");
    refusals
}

#[test]
fn reserve_fails_only_at_a_refused_allocation(rt: HostRuntime) {
    for number in 1..MANY_ALLOCATIONS {
        let alloc = Refusing::new(rt.alloc(), number);
        let refusals = reserve_twice(&rt, &alloc);
        if is_last_run(&rt, &alloc, number, refusals, LEAST_ALLOCATIONS) {
            return;
        }
    }
    assert!(rt; false, "no run without a refusal");
}

#[test]
fn more_points_than_memory_are_refused(rt: HostRuntime) {
    let mut chain = PointList::new(rt.alloc());
    assert!(rt; chain.reserve(usize::MAX).is_err());
    assert!(rt; chain.reserve(1).is_ok() && chain.reserve(usize::MAX).is_err());
    assert!(rt; chain.spare() == PIECE_SIZE);
}

#[test]
fn there_is_room_behind_as_many_points_as_a_file_has_fixes(rt: HostRuntime) {
    let mut chain = PointList::new(rt.alloc());
    for count in 0..FIX_LIMIT {
        assert!(rt; chain.reserve(1).is_ok(), "behind {count} points");
        if chain.spare() > 0 {
            let end = chain.end();
            chain.replace_run(end, end, Point { e: 1, n: 2 });
        }
    }
    assert!(rt; chain.len() == FIX_LIMIT as usize, "in the end");
}
