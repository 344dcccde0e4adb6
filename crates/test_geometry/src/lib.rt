//! Tests of the plane, of what a polygon covers of many points, of lists of points in pieces, of the on-line
//! hull, and of percent polygons and overlaps: worked values, values from other programs, polygons against those by
//! definition, and each call that takes memory refused it, an allocation at a time.
#![tactic(auto)]

#[cfg(test)]
mod allocations;
#[cfg(test)]
mod columns;
#[cfg(test)]
mod corners;
#[cfg(test)]
mod cover_flags;
#[cfg(test)]
mod hull_allocations;
#[cfg(test)]
mod hull_cover;
#[cfg(test)]
mod hull_polygons;
#[cfg(test)]
mod hull_rows;
#[cfg(test)]
mod lanes;
#[cfg(test)]
mod limits;
#[cfg(test)]
mod list_allocations;
#[cfg(test)]
mod list_edits;
#[cfg(test)]
mod list_searches;
#[cfg(test)]
mod overlaps;
#[cfg(test)]
mod percents;
#[cfg(test)]
mod plain;
#[cfg(test)]
mod points;
#[cfg(test)]
mod polygon_cover;
#[cfg(test)]
mod stats_allocations;
