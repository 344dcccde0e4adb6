// A report, whole and in parts, is refused each of its allocations in turn.

use crate::reports::{extent, percent, polygon, row};
use range_analysis::{Analysis, Animal, Animals, OverlapRow, Overlaps, Percents};
use range_estimator::Rows;
use range_fixes::Name;
use range_lanes::Extent;
use range_plane::Scale;
use range_report::{report, report_parts};
use std::alloc::Global;
use std::test::Fail;
use test_doubles::{MANY_ALLOCATIONS, Refusing};

// Three parts of A and three of B, the last one, what A's rows and B's percent polygons grow by, the lists of
// parts and of their texts, and the whole report.
const LEAST_ALLOCATIONS: u32 = 12;

const REPORT: &[u8] =
    b"animal,A,fixes,4\nbox,A,-9223372036854775808,-9223372036854775808,9223372036854775807,9223372036854775807\nrow,A,1,18446744073709551615,4294967295,340282366920938463463374607431768211455\nrow,A,2,18446744073709551615,4294967295,340282366920938463463374607431768211455\nrow,A,3,18446744073709551615,4294967295,340282366920938463463374607431768211455\nrow,A,4,18446744073709551615,4294967295,340282366920938463463374607431768211455\ncorner,A,1,0,0\nanimal,B,fixes,0\nbox,B,-9223372036854775808,-9223372036854775808,9223372036854775807,9223372036854775807\ncorner,B,1,0,0\npercent,B,255,4294967295,4294967295,340282366920938463463374607431768211455\npercent,B,255,4294967295,4294967295,340282366920938463463374607431768211455\npercent,B,255,4294967295,4294967295,340282366920938463463374607431768211455\npercent,B,255,4294967295,4294967295,340282366920938463463374607431768211455\noverlap,B,A,18446744073709551615,4294967295\nend,2\n";

fn widest() -> Extent {
    extent(i64::MIN, i64::MIN, i64::MAX, i64::MAX)
}

// An animal whose rows have the greatest numbers: its lines are longer than those within the limits of files.
fn with_long_rows(alloc: Global) -> Result<Animal, Fail> {
    let long = row(u64::MAX, u32::MAX, u128::MAX);
    Ok(Animal {
        name: Name::new(b"A".to_vec(alloc)?),
        extent: widest(),
        rows: Rows::new(vec![in alloc; long, long, long, long]?),
        polygon: polygon(alloc, &[(0, 0)])?,
        percents: Percents::new(Vec::new(alloc)),
    })
}

// An animal whose percent polygons have the greatest numbers.
fn with_long_percents(alloc: Global) -> Result<Animal, Fail> {
    let long = percent(u8::MAX, u32::MAX, u32::MAX, u128::MAX);
    Ok(Animal {
        name: Name::new(b"B".to_vec(alloc)?),
        extent: widest(),
        rows: Rows::new(Vec::new(alloc)),
        polygon: polygon(alloc, &[(0, 0)])?,
        percents: Percents::new(vec![in alloc; long, long, long, long]?),
    })
}

fn long_analysis(alloc: Global) -> Result<Analysis, Fail> {
    let animals = vec![in alloc; with_long_rows(alloc)?, with_long_percents(alloc)?]?;
    let overlap = OverlapRow {
        animal: 1,
        range: 0,
        count: u64::MAX,
        fixes: u32::MAX,
    };
    let overlaps = vec![in alloc; overlap]?;
    Ok(Analysis {
        animals: Animals::new(animals),
        overlaps: Overlaps::new(overlaps),
        unit: Scale::Metre,
    })
}

#[test]
fn report_fails_only_at_a_refused_allocation(rt: HostRuntime) -> Result<(), Fail> {
    let analysis = long_analysis(rt.alloc())?;
    for number in 1..MANY_ALLOCATIONS {
        let alloc = Refusing::new(rt.alloc(), number);
        let answer = report(&rt, &alloc, &analysis);
        assert_eq!(rt; answer.is_err(), alloc.has_refused(), "allocation {number}");
        if let Ok(text) = answer {
            assert_eq!(rt; text.as_slice(), REPORT);
            assert!(rt; number > LEAST_ALLOCATIONS, "allocations");
            return Ok(());
        }
    }
    Err(Fail::from("no run without a refusal"))
}

#[test]
fn report_parts_fails_only_at_a_refused_allocation(rt: HostRuntime) -> Result<(), Fail> {
    for number in 1..MANY_ALLOCATIONS {
        let analysis = long_analysis(rt.alloc())?;
        let alloc = Refusing::new(rt.alloc(), number);
        let answer = report_parts(&rt, &alloc, analysis);
        assert_eq!(rt; answer.is_err(), alloc.has_refused(), "allocation {number}");
        if let Ok(parts) = answer {
            let mut text = Vec::new(rt.alloc());
            for part in &parts {
                text.extend_from_slice(part.as_slice())?;
            }
            assert_eq!(rt; text.as_slice(), REPORT);
            assert!(rt; number > LEAST_ALLOCATIONS, "allocations");
            return Ok(());
        }
    }
    Err(Fail::from("no run without a refusal"))
}
