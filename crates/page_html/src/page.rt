// The page of ranges.

use crate::body::push_body;
use crate::head::push_head;
use crate::words::{Made, Words};
use page_ground::Differences;
use page_map::{Ground, Plane, Shape};
use page_record::Record;
use page_sections::{Shown, Totals, Unused};
use std::alloc::{AllocError, Global};

/// What a page is made of.
#[derive(Clone, Copy)]
pub struct Page<'a> {
    pub shown: Shown<'a>,
    /// The record of tracks; none where there is none.
    pub record: Option<&'a Record>,
    /// How many fixes were left out of all records; none where it is not known.
    pub totals: Option<Totals<'a>>,
    /// The animals that have no range.
    pub unused: &'a [Unused<'a>],
    /// What is drawn of each animal, in the order of the report, for these levels from the highest on, and whether fixes are drawn.
    pub shapes: &'a [Shape],
    pub levels: &'a [u8],
    pub has_fixes: bool,
    /// Where whole units of the report lie.
    pub plane: Plane,
    /// The rings of the boundary; none where there is no boundary.
    pub boundary: Option<&'a [Vec<Ground>]>,
    /// The reference system, as it is written.
    pub system: &'a [u8],
    /// By how much areas on its grid differ from those on the ellipsoid; none where it is not known.
    pub differences: Option<Differences>,
    /// The SHA-256 checksum of the report, in 64 digits; none where its folder is not handed in.
    pub report_sum: Option<&'a [u8]>,
    pub words: Words<'a>,
    pub made: Made<'a>,
}

/// Appends the page of some ranges.
///
/// # Errors
///
/// Memory ran out.
pub fn push_page(alloc: Global, text: &mut Vec<u8>, page: &Page) -> Result<(), AllocError> {
    push_head(alloc, text, page)?;
    push_body(alloc, text, page)
}
