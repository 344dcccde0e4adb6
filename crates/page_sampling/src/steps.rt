// The fastest step from a fix to the next.

use range_estimator::Row;
use range_plane::Point;

/// A step from a fix to the next, between these seconds, and the square of its length in whole units.
#[derive(Clone, Copy, PartialEq, Eq, Debug)]
pub struct Step {
    pub from: u64,
    pub to: u64,
    pub distance2: u128,
}

// The longest time that steps are compared by: of longer ones, 68 years, none is fast.
const LONGEST: u64 = 1 << 31;

// The square of a difference of coordinates.
fn squared(one: i64, other: i64) -> u128 {
    let apart = u128::from(one.abs_diff(other));
    apart.saturating_mul(apart)
}

// The square of the time that a step takes.
fn time2(step: Step) -> u128 {
    let time = u128::from(step.to.saturating_sub(step.from).min(LONGEST));
    time.saturating_mul(time)
}

// Whether a step is faster than another.
fn is_faster(step: Step, other: Step) -> bool {
    let own = step.distance2.saturating_mul(time2(other));
    own > other.distance2.saturating_mul(time2(step))
}

// The step to a fix from the one before it.
fn step_to(former: (&Row, &Point), own: (&Row, &Point)) -> Step {
    let (row, fix) = former;
    let (next_row, next) = own;
    let eastings = squared(fix.e, next.e);
    Step {
        from: row.second,
        to: next_row.second,
        distance2: eastings.saturating_add(squared(fix.n, next.n)),
    }
}

/// The fastest step between fixes, of such as are as fast the first; steps that take no second are none. `None` where there is no
/// step.
pub fn fastest_step(rows: &[Row], fixes: &[Point]) -> Option<Step> {
    let mut fastest: Option<Step> = None;
    let mut former: Option<(&Row, &Point)> = None;
    for own in rows.iter().zip(fixes) {
        if let Some(before) = former {
            fastest = faster(fastest, step_to(before, own));
        }
        former = Some(own);
    }
    fastest
}

// The faster of two steps, the second of which may take no second.
fn faster(fastest: Option<Step>, step: Step) -> Option<Step> {
    if step.from >= step.to {
        return fastest;
    }
    match fastest {
        Some(own) if !is_faster(step, own) => fastest,
        _ => Some(step),
    }
}
