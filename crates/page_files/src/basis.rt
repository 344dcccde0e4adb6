// What the area of each animal rests on.

use crate::drawn::AllDrawn;
use page_basis::{Basis, basis_of, quoted_level};
use page_report::Report;
use range_plane::OutOfMemory;
use std::alloc::Global;

// What the area of each animal of a report rests on, whose fixes are drawn or not known.
pub(crate) fn basis_of_all(
    alloc: Global,
    report: &Report,
    drawn: &AllDrawn,
) -> Result<Vec<Basis>, OutOfMemory> {
    let level = quoted_level(report);
    let mut basis = Vec::new(alloc);
    for (animal, shape) in report.animals.iter().zip(&drawn.shapes) {
        let fixes = if drawn.has_fixes {
            Some(shape.fixes.as_slice())
        } else {
            None
        };
        basis.push(basis_of(alloc, animal, level, fixes)?)?;
    }
    Ok(basis)
}
