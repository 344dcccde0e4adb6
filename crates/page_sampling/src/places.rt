// At how many places fixes are, and which of them are there twice.

use range_estimator::Row;
use range_plane::Point;
use std::alloc::{AllocError, Global};

/// At how many places fixes are.
#[derive(Clone, Copy, PartialEq, Eq, Debug)]
pub struct Places {
    /// How many places there are.
    pub distinct: usize,
    /// How many fixes have the second and the place of one before them.
    pub repeats: usize,
    /// How many places more there are at one second than one, of all seconds together.
    pub clashes: usize,
}

// How many numbers there are, each counted once.
fn count_distinct<T: Ord + Copy + Drop>(mut items: Vec<T>) -> usize {
    items.sort_unstable();
    items.dedup();
    items.len()
}

// How many places fixes have.
fn distinct_places(alloc: Global, fixes: &[Point]) -> Result<usize, AllocError> {
    let mut places = Vec::new(alloc);
    for fix in fixes {
        places.push((fix.e, fix.n))?;
    }
    Ok(count_distinct(places))
}

// How many pairs of a second and a place fixes have.
fn distinct_fixes(alloc: Global, rows: &[Row], fixes: &[Point]) -> Result<usize, AllocError> {
    let mut pairs = Vec::new(alloc);
    for (row, fix) in rows.iter().zip(fixes) {
        pairs.push((row.second, (fix.e, fix.n)))?;
    }
    Ok(count_distinct(pairs))
}

// How many seconds rows have.
fn distinct_seconds(alloc: Global, rows: &[Row]) -> Result<usize, AllocError> {
    let mut seconds = Vec::new(alloc);
    for row in rows {
        seconds.push(row.second)?;
    }
    Ok(count_distinct(seconds))
}

/// At how many places fixes are, each of which has the second of its row.
///
/// # Errors
///
/// Memory ran out.
pub fn places_of(alloc: Global, rows: &[Row], fixes: &[Point]) -> Result<Places, AllocError> {
    let pairs = distinct_fixes(alloc, rows, fixes)?;
    Ok(Places {
        distinct: distinct_places(alloc, fixes)?,
        repeats: fixes.len().saturating_sub(pairs),
        clashes: pairs.saturating_sub(distinct_seconds(alloc, rows)?),
    })
}
