// The fixes of a track.

ghost use Rattle.std.specs.Prelude.{◌≡◌, ◌↔◌, ◌≤◌, IfErr, IfOk, IsTrue, Some, length, option_map};
ghost use Rattle.range_fixes.specs.Reading.{reading};
ghost use Rattle.range_plane.specs.Fix.{fix_limit};
ghost use Rattle.page_levels.specs.Same.{IsTrackOf, IsUnread};

use crate::fault::LevelFault;
use range_fixes::FixReader;
use range_plane::{Fix, Scale};
use std::alloc::Global;

// Whether a name is this one.
fn is_named(name: Option<&[u8]>, wanted: &[u8]) -> bool
    ensures { IsTrue result ↔ (option_map (λ own. own.now) name.entry ≡ Some wanted.now) }
{
    name == Some(wanted)
}

// The fixes of a track, which is that of the animal of this name.
pub(crate) fn fixes_of(
    alloc: Global,
    track: &[u8],
    unit: Scale,
    name: &[u8],
) -> Result<Vec<Fix>, LevelFault>
    ensures track { IfOk result (λ fixes. IsTrackOf name.now fixes.items (reading unit track.now)) }
    ensures few { IfOk result (λ fixes. length fixes.items ≤ fix_limit) }
    ensures fault { IfErr result (IsUnread name.now (reading unit track.now)) }
{
    let mut reader = FixReader::new(alloc, track, unit);
    let mut fixes = Vec::new(alloc);
    while let Some(fix) = reader.next()? {
        fixes.push(fix)?;
    }
    if is_named(reader.name(), name) {
        Ok(fixes)
    } else {
        Err(LevelFault::OtherAnimal)
    }
}
