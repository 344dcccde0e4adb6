// The rings of a boundary.

ghost use Rattle.std.specs.Prelude.{◌≡◌, ◌+◌, ◌≤◌, ◌^◌, [], IfErr, IfOk, Ok, length};
ghost use Rattle.page_boundary.specs.declared.boundary.BoundaryFault.TheVariants as faults;
ghost use Rattle.page_boundary.specs.Rings.{IsFault, boundary_in, places_of, rings_from};
ghost use Rattle.page_report.specs.Reading.{parts};

use crate::lines::point_in;
use crate::numbers::cut;
use crate::rings::add_point;
use page_map::Ground;
use std::alloc::{AllocError, Global};

// The first line.
const TITLES: &[u8] = b"ring,easting,northing";

/// Why a text is not read as a boundary.
#[derive(Clone, Copy, PartialEq, Eq, Debug)]
pub enum BoundaryFault {
    OutOfMemory,
    /// The line of this number, from 1 on, is the first that may not stand there.
    Line { number: usize },
}

impl From<AllocError> for BoundaryFault {
    ghost from_gives = { λ _ fault. fault ≡ faults.OutOfMemory };

    fn from(_refused: AllocError) -> BoundaryFault {
        BoundaryFault::OutOfMemory
    }
}

// The rings of the lines behind the first.
fn rings_in(alloc: Global, text: &[u8]) -> Result<Vec<Vec<Ground>>, BoundaryFault>
    requires { length text.now + 2 ≤ usize.MAX }
    ensures rings { IfOk result (λ rings. rings_from [] 2 (parts text.now) ≡ Ok (places_of rings.items)) }
    ensures fault { IfErr result (IsFault (rings_from [] 2 (parts text.now))) }
{
    let mut rings = Vec::new(alloc);
    let mut rest = text;
    let mut number = 2;
    while let Some((line, behind)) = cut(rest, b'\n') {
        let Some(point) = point_in(line) else {
            return Err(BoundaryFault::Line { number });
        };
        if !add_point(alloc, &mut rings, point)? {
            return Err(BoundaryFault::Line { number });
        }
        rest = behind;
        number += 1;
    }
    if rest.is_empty() {
        Ok(rings)
    } else {
        Err(BoundaryFault::Line { number })
    }
}

/// The rings of a boundary: below a first line of titles, a line for each point has the number of its ring, from 1 on, and its
/// easting and northing in metres, of at most nine digits, with three decimals. The lines of a ring stand together.
///
/// # Errors
///
/// A line is none that may stand there, or memory ran out.
pub fn read_boundary(alloc: Global, text: &[u8]) -> Result<Vec<Vec<Ground>>, BoundaryFault>
    ensures rings { IfOk result (λ rings. boundary_in text.now ≡ Ok (places_of rings.items)) }
    ensures fault { IfErr result (IsFault (boundary_in text.now)) }
{
    match cut(text, b'\n') {
        Some((titles, behind)) if titles == TITLES => rings_in(alloc, behind),
        _ => Err(BoundaryFault::Line { number: 1 }),
    }
}
