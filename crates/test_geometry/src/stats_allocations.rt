// Tests of failed allocations.

use crate::allocations::is_last_run;
use crate::points::{RING, columns_of};
use range_plane::Columns;
use range_stats::{PercentRow, Ranking, percent};
use std::alloc::{Allocator, Global};
use std::process::Abort;
use std::test::Fail;
use test_doubles::{MANY_ALLOCATIONS, Refusing};

// A ranking takes memory twice, rows once, a hull for each of its chains, and the points that are flagged at once for
// both columns and for their cover flags.
const RANKING_ALLOCATIONS: u32 = 2;

const HULL_ALLOCATIONS: u32 = 2 + 3;

const HALF_OF_RING: PercentRow = PercentRow {
    level: 50,
    kept: 3,
    corners: 3,
    area2: 40,
};

// Makes the row of half of the ring, again where it is refused. How often it was refused.
fn percent_again<A: Allocator + Copy>(rt: &impl Abort, alloc: A, fixes: &Columns) -> u32 {
    assert!(rt; fixes.len() < 100);
    let row = percent(alloc, fixes, 50);
    let refusals = u32::from(row.is_err());
    let row = row
        .or_else(|_| percent(alloc, fixes, 50))
        .expect(rt, "again");
    assert!(rt; row == HALF_OF_RING, "row");
    refusals
}

#[test]
fn percent_fails_only_at_a_refused_allocation(rt: HostRuntime) -> Result<(), Fail> {
    let fixes = columns_of(rt.alloc(), &RING)?;
    let least = RANKING_ALLOCATIONS + HULL_ALLOCATIONS;
    for number in 1..MANY_ALLOCATIONS {
        let alloc = Refusing::new(rt.alloc(), number);
        let refusals = percent_again(&rt, &alloc, &fixes);
        if is_last_run(&rt, &alloc, number, refusals, least) {
            return Ok(());
        }
    }
    Err(Fail::from("no run without a refusal"))
}

// Makes a ranking, again where it is refused. How often it was refused.
fn ranking_again<A: Allocator + Copy>(
    rt: &impl Abort,
    alloc: Global,
    refusing: A,
    fixes: &Columns,
) -> u32 {
    assert!(rt; fixes.len() < 100);
    let ranking = Ranking::new(refusing, fixes, &[50]);
    let refusals = u32::from(ranking.is_err());
    let ranking = ranking
        .or_else(|_| Ranking::new(refusing, fixes, &[50]))
        .expect(rt, "again");
    assert!(rt; ranking.row(alloc, 50) == Ok(HALF_OF_RING), "row");
    refusals
}

#[test]
fn a_ranking_fails_only_at_a_refused_allocation(rt: HostRuntime) -> Result<(), Fail> {
    let fixes = columns_of(rt.alloc(), &RING)?;
    for number in 1..MANY_ALLOCATIONS {
        let alloc = Refusing::new(rt.alloc(), number);
        let refusals = ranking_again(&rt, rt.alloc(), &alloc, &fixes);
        if is_last_run(&rt, &alloc, number, refusals, RANKING_ALLOCATIONS) {
            return Ok(());
        }
    }
    Err(Fail::from("no run without a refusal"))
}

// Reads a row off a ranking, again where it is refused. How often it was refused.
fn row_again<A: Allocator + Copy>(rt: &impl Abort, alloc: A, ranking: &Ranking) -> u32 {
    let row = ranking.row(alloc, 50);
    let refusals = u32::from(row.is_err());
    let row = row.or_else(|_| ranking.row(alloc, 50)).expect(rt, "again");
    assert!(rt; row == HALF_OF_RING, "row");
    refusals
}

#[test]
fn row_fails_only_at_a_refused_allocation(rt: HostRuntime) -> Result<(), Fail> {
    let fixes = columns_of(rt.alloc(), &RING)?;
    assert!(rt; fixes.len() < 100);
    let ranking = Ranking::new(rt.alloc(), &fixes, &[50])?;
    for number in 1..MANY_ALLOCATIONS {
        let alloc = Refusing::new(rt.alloc(), number);
        let refusals = row_again(&rt, &alloc, &ranking);
        if is_last_run(&rt, &alloc, number, refusals, HULL_ALLOCATIONS) {
            return Ok(());
        }
    }
    Err(Fail::from("no run without a refusal"))
}

// Reads rows off a ranking, again where it is refused. How often it was refused.
fn rows_again<A: Allocator + Copy>(rt: &impl Abort, alloc: A, ranking: &Ranking) -> u32 {
    let rows = ranking.rows(alloc, &[50, 50]);
    let refusals = u32::from(rows.is_err());
    let rows = rows
        .or_else(|_| ranking.rows(alloc, &[50, 50]))
        .expect(rt, "again");
    assert!(rt;
        rows.as_slice() == [HALF_OF_RING, HALF_OF_RING].as_slice(),
        "rows"
    );
    refusals
}

#[test]
fn rows_fails_only_at_a_refused_allocation(rt: HostRuntime) -> Result<(), Fail> {
    let fixes = columns_of(rt.alloc(), &RING)?;
    assert!(rt; fixes.len() < 100);
    let ranking = Ranking::new(rt.alloc(), &fixes, &[50])?;
    for number in 1..MANY_ALLOCATIONS {
        let alloc = Refusing::new(rt.alloc(), number);
        let refusals = rows_again(&rt, &alloc, &ranking);
        if is_last_run(&rt, &alloc, number, refusals, 1 + HULL_ALLOCATIONS) {
            return Ok(());
        }
    }
    Err(Fail::from("no run without a refusal"))
}
