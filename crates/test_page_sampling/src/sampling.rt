// Tests of how fixes lie in time and place.

use crate::cases::{CASES, Sighting};
use page_sampling::{Sampling, sampling_of};
use range_estimator::Row;
use range_plane::Point;
use std::alloc::{AllocError, Global};

// The rows of fixes; what polygons they have is not looked at.
fn rows_of(alloc: Global, fixes: &[Sighting]) -> Result<Vec<Row>, AllocError> {
    let mut rows = Vec::new(alloc);
    for fix in fixes {
        rows.push(Row {
            second: fix.0,
            corners: 0,
            area2: 0,
        })?;
    }
    Ok(rows)
}

// The points of fixes.
fn points_of(alloc: Global, fixes: &[Sighting]) -> Result<Vec<Point>, AllocError> {
    let mut points = Vec::new(alloc);
    for fix in fixes {
        if let Some(point) = Point::new(fix.1, fix.2) {
            points.push(point)?;
        }
    }
    Ok(points)
}

// What is said of fixes; without their places what their times alone say.
fn sampling(alloc: Global, fixes: &[Sighting], has_places: bool) -> Result<Sampling, AllocError> {
    let rows = rows_of(alloc, fixes)?;
    let points = points_of(alloc, fixes)?;
    let known = if has_places {
        Some(points.as_slice())
    } else {
        None
    };
    sampling_of(alloc, &rows, known)
}

#[test]
fn places_are_counted_once(rt: HostRuntime) {
    for case in &CASES {
        let Ok(sampling) = sampling(rt.alloc(), case.fixes, true) else {
            assert!(rt; false, "there is memory");
            return;
        };
        let Some(places) = sampling.places else {
            assert!(rt; false, "{}: places are known", case.what);
            return;
        };
        let own = (places.distinct, places.repeats, places.clashes);
        assert!(rt; own == case.places, "{}", case.what);
    }
}

#[test]
fn half_of_the_fixes_take_so_many_days(rt: HostRuntime) {
    for case in &CASES {
        let Ok(sampling) = sampling(rt.alloc(), case.fixes, false) else {
            assert!(rt; false, "there is memory");
            return;
        };
        let Some(periods) = sampling.periods else {
            assert!(rt; false, "{}: there are days", case.what);
            return;
        };
        assert!(rt;
            (periods.all, periods.half) == case.periods,
            "{}",
            case.what
        );
    }
}

#[test]
fn the_longest_gap_has_its_seconds(rt: HostRuntime) {
    for case in &CASES {
        let Ok(sampling) = sampling(rt.alloc(), case.fixes, false) else {
            assert!(rt; false, "there is memory");
            return;
        };
        let gap = sampling.gap.map(|gap| (gap.from, gap.to));
        assert!(rt; gap == case.gap, "{}", case.what);
    }
}

#[test]
fn the_fastest_step_is_found(rt: HostRuntime) {
    for case in &CASES {
        let Ok(sampling) = sampling(rt.alloc(), case.fixes, true) else {
            assert!(rt; false, "there is memory");
            return;
        };
        let step = sampling
            .fastest
            .map(|step| (step.from, step.to, step.distance2));
        assert!(rt; step == case.fastest, "{}", case.what);
    }
}

#[test]
fn without_places_times_alone_are_known(rt: HostRuntime) {
    let Ok(sampling) = sampling(rt.alloc(), &[(0, 0, 0), (86_400, 5, 5)], false) else {
        assert!(rt; false, "there is memory");
        return;
    };
    assert!(rt;
        sampling.places.is_none() && sampling.fastest.is_none(),
        "places are not known"
    );
    assert!(rt;
        sampling.gap.is_some() && sampling.periods.is_some(),
        "times are"
    );
}

#[test]
fn of_no_fix_nothing_is_said(rt: HostRuntime) {
    let Ok(sampling) = sampling(rt.alloc(), &[], false) else {
        assert!(rt; false, "there is memory");
        return;
    };
    assert!(rt;
        sampling.gap.is_none() && sampling.periods.is_none(),
        "there is nothing"
    );
}
