// Animals whose fixes lie years apart, as those of a receiver whose clock was set back do.

use crate::said::Said;
use crate::sheet::Sheet;
use crate::tracks::Herd;
use crate::words::{push, push_number};
use range_plane::OutOfMemory;
use split_tracks::Entry;
use std::alloc::{AllocError, Global};

// The seconds of a day, and of five years.
const DAY: u64 = 86_400;

const FIVE_YEARS: u64 = 157_680_000;

// The longest time between two fixes that are used, one right behind the other; how many come before it, and how many there are.
#[derive(Clone, Copy)]
struct Gap {
    last: Option<u64>,
    seconds: u64,
    before: usize,
    count: usize,
}

impl Gap {
    // That of no fix.
    fn none() -> Gap {
        Gap {
            last: None,
            seconds: 0,
            before: 0,
            count: 0,
        }
    }

    // The same with one more fix at a second.
    fn with(self, second: u64) -> Gap {
        let own = second.saturating_sub(self.last.unwrap_or(second));
        let is_longer = own > self.seconds;
        Gap {
            last: Some(second),
            seconds: self.seconds.max(own),
            before: if is_longer { self.count } else { self.before },
            count: self.count.saturating_add(1),
        }
    }
}

// The gap of a track.
fn gap_of(track: &[Entry]) -> Gap {
    let mut gap = Gap::none();
    for entry in track {
        if entry.is_used {
            gap = gap.with(entry.moment.second);
        }
    }
    gap
}

// The question whether the dates of an animal are right.
fn question(alloc: Global, name: &[u8], gap: Gap) -> Result<Vec<u8>, AllocError> {
    let mut text = Vec::new(alloc);
    push(&mut text, "the first ")?;
    push_number(&mut text, gap.before)?;
    push(&mut text, " of ")?;
    push_number(&mut text, gap.count)?;
    push(&mut text, " fixes of ")?;
    text.extend_from_slice(name)?;
    push(&mut text, " are ")?;
    push_number(
        &mut text,
        usize::try_from(gap.seconds / DAY).unwrap_or(usize::MAX),
    )?;
    push(&mut text, " days before the others: are their dates right?")?;
    Ok(text)
}

// Asks of each animal whose fixes lie years apart whether their dates are right.
pub(crate) fn ask_years(
    alloc: Global,
    said: &mut Said,
    herd: &Herd<'_>,
    sheet: &Sheet<'_>,
) -> Result<(), OutOfMemory> {
    if sheet.columns.time.is_empty() || sheet.columns.is_second {
        return Ok(());
    }
    for animal in herd.order {
        let gap = gap_of(herd.track(*animal));
        if gap.seconds > FIVE_YEARS {
            said.say(alloc, &question(alloc, herd.name(*animal), gap)?)?;
        }
    }
    Ok(())
}
