// Fixes of tracks, as files have them.

ghost use Rattle.std.specs.Prelude.{◌≡◌, ◌++◌, ◌∷◌, [], IfErr, IfOk, OnOk, SomeIff, map};
ghost use Rattle.split_fates.specs.Marked.{IsMarkedFault, IsOnPlane, fix_at, place_at};

use range_plane::{Fix, OutOfMemory, Point};
use split_files::MarkedFix;
use split_tracks::Entry;
use std::alloc::Allocator;

/// Why entries are no fixes of a file.
#[derive(Clone, Copy, PartialEq, Eq, Debug)]
pub enum MarkedFault {
    OutOfMemory,
    /// That of this record is off the plane.
    OffPlane { record: u32 },
}

impl From<OutOfMemory> for MarkedFault {
    ghost use Rattle.split_fates.specs.declared.marked.MarkedFault.TheVariants as faults;

    ghost from_gives = { λ _ fault. fault ≡ faults.OutOfMemory };

    fn from(_refused: OutOfMemory) -> MarkedFault {
        MarkedFault::OutOfMemory
    }
}

// The point of an entry once it is shifted.
fn point_at(entry: &Entry, shift: (i64, i64)) -> Option<Point>
    ensures { SomeIff result (IsOnPlane shift entry.now) (place_at shift entry.now) }
{
    let easting = entry.easting.checked_add(shift.0)?;
    let northing = entry.northing.checked_add(shift.1)?;
    Point::new(easting, northing)
}

// The fix of an entry once it is shifted; `None` where it is off the plane.
fn fix_at(entry: &Entry, shift: (i64, i64)) -> Option<MarkedFix>
    ensures { SomeIff result (IsOnPlane shift entry.now) (fix_at shift entry.now) }
{
    let at = point_at(entry, shift)?;
    Some(MarkedFix {
        fix: Fix {
            second: entry.moment.second,
            at,
        },
        is_used: entry.is_used,
    })
}

// Puts a fix behind others.
fn push_fix<A: Allocator>(fixes: &mut Vec<MarkedFix, A>, fix: MarkedFix) -> Result<(), OutOfMemory>
    ensures { OnOk result (fixes.new.items ≡ fixes.old.items ++ fix ∷ []) }
{
    fixes.push(fix)?;
    Ok(())
}

/// The fixes of a track, in its order: in whole seconds, and shifted by so many units east and north.
///
/// # Errors
///
/// One is off the plane once it is shifted, and the first such one is named; or memory ran out.
pub fn marked_fixes<A: Allocator>(
    alloc: A,
    track: &[Entry],
    shift: (i64, i64),
) -> Result<Vec<MarkedFix, A>, MarkedFault>
    ensures fixes { IfOk result (λ fixes. fixes.items ≡ map (fix_at shift) track.now) }
    ensures fault { IfErr result (IsMarkedFault shift track.now) }
{
    let mut fixes = Vec::new(alloc);
    for entry in track {
        let Some(fix) = fix_at(entry, shift) else {
            return Err(MarkedFault::OffPlane {
                record: entry.record,
            });
        };
        push_fix(&mut fixes, fix)?;
    }
    Ok(fixes)
}
