// The reports of analyses that are made by hand.

use range_analysis::{Analysis, Animal, Animals, OverlapRow, Overlaps, Percents};
use range_estimator::{Row, Rows};
use range_fixes::Name;
use range_lanes::Extent;
use range_plane::{Point, Polygon, Scale, are_corners};
use range_report::{report, report_parts};
use range_stats::PercentRow;
use std::alloc::Global;
use std::process::Abort;
use std::test::Fail;
use std::thread::Threads;

const REPORT: &[u8] =
    b"animal,A,fixes,5\nbox,A,0,0,10,10\nrow,A,1,0,1,0\nrow,A,2,60,2,0\nrow,A,3,120,3,100\nrow,A,4,180,4,200\nrow,A,5,240,4,200\ncorner,A,1,0,0\ncorner,A,2,10,0\ncorner,A,3,10,10\ncorner,A,4,0,10\npercent,A,50,3,3,50\npercent,A,95,5,4,200\npercent,A,100,5,4,200\nanimal,B,fixes,3\nbox,B,5,5,20,5\nrow,B,1,0,1,0\nrow,B,2,60,2,0\nrow,B,3,120,2,0\ncorner,B,1,5,5\ncorner,B,2,20,5\npercent,B,50,2,2,0\npercent,B,95,3,2,0\npercent,B,100,3,2,0\noverlap,A,B,1,5\noverlap,B,A,2,3\nend,2\n";

pub(crate) fn extent(min_e: i64, min_n: i64, max_e: i64, max_n: i64) -> Extent {
    Extent {
        min_e,
        min_n,
        max_e,
        max_n,
    }
}

pub(crate) fn row(second: u64, corners: u32, area2: u128) -> Row {
    Row {
        second,
        corners,
        area2,
    }
}

pub(crate) fn percent(level: u8, kept: u32, corners: u32, area2: u128) -> PercentRow {
    PercentRow {
        level,
        kept,
        corners,
        area2,
    }
}

pub(crate) fn polygon(alloc: Global, positions: &[(i64, i64)]) -> Result<Polygon, Fail> {
    let mut points = Vec::new(alloc);
    for (e, n) in positions {
        points.push(Point::new(*e, *n).ok_or("a point")?)?;
    }
    Ok(
        Polygon::plain(alloc, &points[..points.len().min(9)])
            .ok()
            .ok_or("memory")?,
    )
}

fn square(alloc: Global) -> Result<Animal, Fail> {
    let rows = vec![in alloc;
        row(0, 1, 0),
        row(60, 2, 0),
        row(120, 3, 100),
        row(180, 4, 200),
        row(240, 4, 200),
    ]?;
    let percents = vec![in alloc;
        percent(50, 3, 3, 50),
        percent(95, 5, 4, 200),
        percent(100, 5, 4, 200),
    ]?;
    Ok(Animal {
        name: Name::new(b"A".to_vec(alloc)?),
        extent: extent(0, 0, 10, 10),
        rows: Rows::new(rows),
        polygon: polygon(alloc, &[(0, 0), (10, 0), (10, 10), (0, 10)])?,
        percents: Percents::new(percents),
    })
}

fn segment(alloc: Global) -> Result<Animal, Fail> {
    let percents = vec![in alloc;
        percent(50, 2, 2, 0),
        percent(95, 3, 2, 0),
        percent(100, 3, 2, 0),
    ]?;
    Ok(Animal {
        name: Name::new(b"B".to_vec(alloc)?),
        extent: extent(5, 5, 20, 5),
        rows: Rows::new(vec![in alloc; row(0, 1, 0), row(60, 2, 0), row(120, 2, 0)]?),
        polygon: polygon(alloc, &[(5, 5), (20, 5)])?,
        percents: Percents::new(percents),
    })
}

// Two animals, each with fixes in the other's polygon.
fn two_animals(alloc: Global) -> Result<Analysis, Fail> {
    let animals = vec![in alloc; square(alloc)?, segment(alloc)?]?;
    let first = OverlapRow {
        animal: 0,
        range: 1,
        count: 1,
        fixes: 5,
    };
    let second = OverlapRow {
        animal: 1,
        range: 0,
        count: 2,
        fixes: 3,
    };
    let overlaps = vec![in alloc; first, second]?;
    Ok(Analysis {
        animals: Animals::new(animals),
        overlaps: Overlaps::new(overlaps),
        unit: Scale::Metre,
    })
}

#[test]
fn two_animals_have_this_report(rt: HostRuntime) -> Result<(), Fail> {
    let alloc = rt.alloc();
    let analysis = two_animals(alloc)?;
    let text = report(&rt, alloc, &analysis).ok().ok_or("memory")?;
    assert_eq!(rt; text.as_slice(), REPORT);
    Ok(())
}

// The parts of a report, one after the other, are the report.
fn expect_parts<R: Threads + Sync + Abort>(
    rt: &R,
    alloc: Global,
    analysis: Analysis,
    parts: usize,
    report: &[u8],
) -> Result<(), Fail> {
    let texts = report_parts(rt, alloc, analysis).ok().ok_or("memory")?;
    assert_eq!(rt; texts.len(), parts);
    let mut text = Vec::new(alloc);
    for part in texts {
        text.extend_from_slice(&part)?;
    }
    assert!(rt; text.as_slice() == report);
    Ok(())
}

#[test]
fn a_short_report_is_one_part(rt: HostRuntime) -> Result<(), Fail> {
    let analysis = two_animals(rt.alloc())?;
    expect_parts(&rt, rt.alloc(), analysis, 1, REPORT)
}

// The rows of one animal, more than a part has, are counted on from part to part.
#[test]
fn rows_are_counted_on_from_part_to_part(rt: HostRuntime) -> Result<(), Fail> {
    let alloc = rt.alloc();
    let mut rows = Vec::new(alloc);
    let mut lines = Vec::from_slice(alloc, b"animal,A,fixes,8193\nbox,A,0,0,0,0\n")?;
    for n in 1..=8193u64 {
        rows.push(row(n - 1, 1, 0))?;
        let line = format!(in alloc; "row,A,{n},{},1,0\n", n - 1)?;
        lines.extend_from_slice(line.as_bytes())?;
    }
    lines.extend_from_slice(b"corner,A,1,0,0\nend,1\n")?;
    let animal = Animal {
        name: Name::new(b"A".to_vec(alloc)?),
        extent: extent(0, 0, 0, 0),
        rows: Rows::new(rows),
        polygon: polygon(alloc, &[(0, 0)])?,
        percents: Percents::new(Vec::new(alloc)),
    };
    let analysis = Analysis {
        animals: Animals::new(vec![in alloc; animal]?),
        overlaps: Overlaps::new(Vec::new(alloc)),
        unit: Scale::Metre,
    };
    let text = report(&rt, alloc, &analysis).ok().ok_or("memory")?;
    assert!(rt; text.as_slice() == lines.as_slice());
    expect_parts(&rt, alloc, analysis, 3, &lines)
}

// The same of the corners of one animal.
#[test]
fn corners_are_counted_on_from_part_to_part(rt: HostRuntime) -> Result<(), Fail> {
    let alloc = rt.alloc();
    let mut corners = Vec::new(alloc);
    let mut lines = Vec::from_slice(alloc, b"animal,A,fixes,0\nbox,A,0,0,0,0\n")?;
    for i in 1..=8193u16 {
        let e = i64::from(i);
        let n = e.wrapping_mul(e);
        corners.push(Point::new(e, n).ok_or("a point")?)?;
        let line = format!(in alloc; "corner,A,{i},{e},{n}\n")?;
        lines.extend_from_slice(line.as_bytes())?;
    }
    lines.extend_from_slice(b"end,1\n")?;
    assert!(rt; are_corners(&corners));
    let animal = Animal {
        name: Name::new(b"A".to_vec(alloc)?),
        extent: extent(0, 0, 0, 0),
        rows: Rows::new(Vec::new(alloc)),
        polygon: Polygon::of_corners(corners),
        percents: Percents::new(Vec::new(alloc)),
    };
    let analysis = Analysis {
        animals: Animals::new(vec![in alloc; animal]?),
        overlaps: Overlaps::new(Vec::new(alloc)),
        unit: Scale::Metre,
    };
    let text = report(&rt, alloc, &analysis).ok().ok_or("memory")?;
    assert!(rt; text.as_slice() == lines.as_slice());
    Ok(())
}

// In decimetres the report begins with a line that says so, with and without animals.
#[test]
fn a_report_in_decimetres_begins_with_its_unit(rt: HostRuntime) -> Result<(), Fail> {
    let alloc = rt.alloc();
    let animals = vec![in alloc; segment(alloc)?, segment(alloc)?]?;
    let overlaps = Vec::new(alloc);
    let mut analysis = Analysis {
        animals: Animals::new(animals),
        overlaps: Overlaps::new(overlaps),
        unit: Scale::Metre,
    };
    let metres = report(&rt, alloc, &analysis).ok().ok_or("memory")?;
    analysis.unit = Scale::Decimetre;
    let decimetres = report(&rt, alloc, &analysis).ok().ok_or("memory")?;
    let lines = decimetres.as_slice().strip_prefix(b"unit,dm\n");
    assert_eq!(rt; lines, Some(metres.as_slice()));
    let none = Analysis {
        animals: Animals::new(Vec::new(alloc)),
        overlaps: Overlaps::new(Vec::new(alloc)),
        unit: Scale::Decimetre,
    };
    let text = report(&rt, alloc, &none).ok().ok_or("memory")?;
    assert_eq!(rt; text.as_slice(), b"unit,dm\nend,0\n".as_slice());
    Ok(())
}
