// What is said below the map.

use crate::difference::Differences;
use page_map::Maps;
use page_text::push_whole;
use std::alloc::AllocError;

// How many animals that are too small to be seen have their numbers in the sentence.
const MOST_UNSEEN: usize = 20;

// Appends by how much areas on the grid differ from those on the ellipsoid.
fn push_differences(
    text: &mut Vec<u8>,
    differences: Option<Differences>,
) -> Result<(), AllocError> {
    let Some(Differences { least, most }) = differences else {
        return text.extend_from_slice(
            b"How areas on this grid differ from those on the ellipsoid is not known.",
        );
    };
    text.extend_from_slice(b"Areas on the grid differ from those on the ellipsoid by ")?;
    least.push(text)?;
    if least != most {
        text.extend_from_slice(b" to ")?;
        most.push(text)?;
    }
    text.extend_from_slice(b" % here.")
}

// Appends the numbers of animals that are too small to be seen.
fn push_unseen(text: &mut Vec<u8>, unseen: &[u32]) -> Result<(), AllocError> {
    text.extend_from_slice(b" Too small to be seen beside the others: ")?;
    for (place, number) in unseen[..unseen.len().min(MOST_UNSEEN)].iter().enumerate() {
        if place > 0 {
            text.extend_from_slice(b", ")?;
        }
        push_whole(text, u128::from(*number))?;
    }
    let end: &[u8] = if unseen.len() > MOST_UNSEEN {
        b", ..."
    } else {
        b"."
    };
    text.extend_from_slice(end)
}

/// Appends what is said below the map: what its grid is, what dots are, and what is not seen of a boundary and of animals.
///
/// # Errors
///
/// Memory ran out.
pub fn push_ground(
    text: &mut Vec<u8>,
    differences: Option<Differences>,
    drawn: &Maps,
    has_fixes: bool,
    has_boundary: bool,
) -> Result<(), AllocError> {
    text.extend_from_slice(b"The grid is in metres. ")?;
    push_differences(text, differences)?;
    if has_fixes {
        text.extend_from_slice(
            b" Dots are fixes; of those that would cover each other one is drawn.",
        )?;
    }
    if has_boundary && !drawn.has_boundary {
        text.extend_from_slice(b" The boundary lies outside this map.")?;
    }
    if drawn.unseen.is_empty() {
        Ok(())
    } else {
        push_unseen(text, &drawn.unseen)
    }
}
