// The makers of collars whose exports have titles of their own.

use crate::lookup::first_place;
use crate::presets::{GPX, PRESETS, Preset};

// Whether a table has a column for each of these titles, between which commas stand.
fn has_each(titles: &[&[u8]], wanted: &str) -> bool {
    for title in wanted.split(',') {
        if first_place(titles, title.as_bytes()).is_none() {
            return false;
        }
    }
    true
}

// Whether a table has the columns of time and place of a preset.
fn has_columns(titles: &[&[u8]], preset: Preset) -> bool {
    has_each(titles, preset.time)
        && first_place(titles, preset.lon.as_bytes()).is_some()
        && first_place(titles, preset.lat.as_bytes()).is_some()
}

/// The maker whose columns of time and place a table with these titles has, if it has those of one.
pub fn maker_of(titles: &[&[u8]]) -> Option<&'static str> {
    for preset in PRESETS {
        if preset.maker != GPX && has_columns(titles, preset) {
            return Some(preset.maker);
        }
    }
    None
}
