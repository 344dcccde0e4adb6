// How the fixes of an animal lie in time and place.

use crate::places::{Places, places_of};
use crate::steps::{Step, fastest_step};
use crate::times::{Gap, Periods, longest_gap, periods_of};
use range_estimator::Row;
use range_plane::Point;
use std::alloc::{AllocError, Global};

/// How the fixes of an animal lie in time and place. What goes by places is `None` where these are not known.
#[derive(Clone, Copy, PartialEq, Eq, Debug)]
pub struct Sampling {
    pub gap: Option<Gap>,
    pub periods: Option<Periods>,
    pub places: Option<Places>,
    pub fastest: Option<Step>,
}

/// How fixes lie in time, by their rows, and in place, if their points are known.
///
/// # Errors
///
/// Memory ran out.
pub fn sampling_of(
    alloc: Global,
    rows: &[Row],
    fixes: Option<&[Point]>,
) -> Result<Sampling, AllocError> {
    let (places, fastest) = match fixes {
        Some(fixes) => (
            Some(places_of(alloc, rows, fixes)?),
            fastest_step(rows, fixes),
        ),
        None => (None, None),
    };
    Ok(Sampling {
        gap: longest_gap(rows),
        periods: periods_of(alloc, rows)?,
        places,
        fastest,
    })
}
