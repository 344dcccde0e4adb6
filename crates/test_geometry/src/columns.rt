// Tests of lists of points.

use crate::allocations::is_last_run;
use range_plane::{Columns, Point};
use std::alloc::Allocator;
use std::process::Abort;
use std::test::Fail;
use test_doubles::{MANY_ALLOCATIONS, Refusing};

// Two columns of points take memory at least once each.
const LEAST_ALLOCATIONS: u32 = 2;

const POINTS: u8 = 100;

fn diagonal(i: u8) -> Point {
    Point {
        e: i64::from(i),
        n: i64::from(i),
    }
}

// Whether the list is the first `count` points of the diagonal.
fn is_diagonal<A: Allocator>(columns: &Columns<A>, count: u8) -> bool {
    if columns.len() != usize::from(count) {
        return false;
    }
    for i in 0..count {
        if columns.at(usize::from(i)) != diagonal(i) {
            return false;
        }
    }
    true
}

#[test]
fn a_pushed_point_is_the_last_one(rt: HostRuntime) -> Result<(), Fail> {
    let mut columns = Columns::new(rt.alloc());
    assert!(rt; columns.is_empty(), "at first");
    columns.push(Point { e: 1, n: 2 })?;
    assert!(rt; columns.len() == 1 && !columns.is_empty(), "after a push");
    assert!(rt; columns.at(0) == Point { e: 1, n: 2 }, "the pushed point");
    Ok(())
}

#[test]
fn points_pushed_into_reserved_room_keep_their_order(rt: HostRuntime) -> Result<(), Fail> {
    let mut columns = Columns::new(rt.alloc());
    columns.reserve(3)?;
    assert!(rt; columns.spare() >= 3, "after reserve");
    columns.push_reserved(Point { e: 1, n: 2 });
    columns.push_reserved(Point { e: 3, n: 4 });
    columns.push_reserved(Point { e: 5, n: 6 });
    assert!(rt; columns.len() == 3, "after three");
    assert!(rt; columns.eastings() == [1, 3, 5].as_slice(), "eastings");
    assert!(rt; columns.northings() == [2, 4, 6].as_slice(), "northings");
    columns.clear();
    assert!(rt; columns.len() == 0 && columns.spare() >= 3, "after clear");
    Ok(())
}

// Pushes the points of the diagonal, each again where it is refused. How many were refused.
fn push_each<A: Allocator + Copy>(rt: &impl Abort, alloc: A) -> u32 {
    let mut columns = Columns::new(alloc);
    let mut refusals = 0u32;
    for i in 0..POINTS {
        if columns.push(diagonal(i)).is_err() {
            refusals = refusals.wrapping_add(1);
            assert!(rt; is_diagonal(&columns, i), "after a refusal at {i}");
            assert!(rt; columns.push(diagonal(i)).is_ok(), "again at {i}");
        }
    }
    assert!(rt; is_diagonal(&columns, POINTS), "in the end");
    refusals
}

#[test]
fn push_fails_only_at_a_refused_allocation(rt: HostRuntime) {
    for number in 1..MANY_ALLOCATIONS {
        let alloc = Refusing::new(rt.alloc(), number);
        let refusals = push_each(&rt, &alloc);
        if is_last_run(&rt, &alloc, number, refusals, LEAST_ALLOCATIONS) {
            return;
        }
    }
    assert!(rt; false, "no run without a refusal");
}

// Pushes the points of the diagonal where more and more room is made before, again where it is refused.
// How often it was refused.
fn reserve_each<A: Allocator + Copy>(rt: &impl Abort, alloc: A) -> u32 {
    let mut columns = Columns::new(alloc);
    let mut refusals = 0u32;
    for i in 0..POINTS {
        let room = 10 * usize::from(i) + 1;
        if columns.reserve(room).is_err() {
            refusals = refusals.wrapping_add(1);
            assert!(rt; is_diagonal(&columns, i), "after a refusal at {i}");
            assert!(rt; columns.reserve(room).is_ok(), "again at {i}");
        }
        assert!(rt; columns.spare() >= room, "room at {i}");
        columns.push_reserved(diagonal(i));
    }
    assert!(rt; is_diagonal(&columns, POINTS), "in the end");
    refusals
}

#[test]
fn reserve_fails_only_at_a_refused_allocation(rt: HostRuntime) {
    for number in 1..MANY_ALLOCATIONS {
        let alloc = Refusing::new(rt.alloc(), number);
        let refusals = reserve_each(&rt, &alloc);
        if is_last_run(&rt, &alloc, number, refusals, LEAST_ALLOCATIONS) {
            return;
        }
    }
    assert!(rt; false, "no run without a refusal");
}
