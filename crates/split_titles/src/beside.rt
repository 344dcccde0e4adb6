// Columns that are called a longitude and a latitude, and are not read.

use crate::columns::{Columns, Pair, is_read};
use crate::dictionary::{EASTS, LATITUDES, LONGITUDES, NORTHS, OTHER_PLACES};
use crate::words::{behind, has_word, is_one_of, start_of, word_from};
use std::alloc::Allocator;

// A text cut at a word that is left out: what stands before it, and behind it.
#[derive(Clone, Copy)]
struct Cut<'t> {
    before: &'t [u8],
    behind: &'t [u8],
}

impl<'t> Cut<'t> {
    // Whether another text is the same beside its word, in small or great letters.
    fn is_same(self, other: Cut<'_>) -> bool {
        self.before.eq_ignore_ascii_case(other.before)
            && self.behind.eq_ignore_ascii_case(other.behind)
    }
}

// A text cut at its first word that is one of these, if there is one.
fn cut_at<'t>(text: &'t [u8], words: &[&str]) -> Option<Cut<'t>> {
    for place in 0..text.len() {
        let word = word_from(text, place);
        if is_one_of(word, words) {
            return Some(Cut {
                before: start_of(text, place),
                behind: behind(text, place.saturating_add(word.len())),
            });
        }
    }
    None
}

// A text cut at its first word or letter for a side; or whole.
fn cut_at_side<'t>(text: &'t [u8], words: &[&str], letter: &str) -> Cut<'t> {
    cut_at(text, words)
        .or(cut_at(text, &[letter]))
        .unwrap_or(Cut {
            before: text,
            behind: b"",
        })
}

// What stands beside the word for an axis in a title, without words and letters for its side, as in `Longitude (°E)`.
#[derive(Clone, Copy)]
struct Beside<'t> {
    before: Cut<'t>,
    behind: Cut<'t>,
}

impl<'t> Beside<'t> {
    // Whether another title is the same beside its axis.
    fn is_same(self, other: Beside<'_>) -> bool {
        self.before.is_same(other.before) && self.behind.is_same(other.behind)
    }
}

// What stands beside the first word for a longitude in a title, if there is one.
fn beside_longitude(title: &[u8]) -> Option<Beside<'_>> {
    let axis = cut_at(title, &LONGITUDES)?;
    Some(Beside {
        before: cut_at_side(axis.before, &EASTS, "e"),
        behind: cut_at_side(axis.behind, &EASTS, "e"),
    })
}

// What stands beside the first word for a latitude.
fn beside_latitude(title: &[u8]) -> Option<Beside<'_>> {
    let axis = cut_at(title, &LATITUDES)?;
    Some(Beside {
        before: cut_at_side(axis.before, &NORTHS, "n"),
        behind: cut_at_side(axis.behind, &NORTHS, "n"),
    })
}

// The first column that is not read, and whose title is the same as this beside a word for a latitude.
fn latitude_of<A: Allocator>(
    titles: &[&[u8]],
    columns: &Columns<A>,
    longitude: Beside<'_>,
) -> Option<usize> {
    for (at, title) in titles.iter().enumerate() {
        match beside_latitude(title) {
            Some(latitude) if latitude.is_same(longitude) && !is_read(columns, at) => {
                return Some(at);
            }
            _ => {}
        }
    }
    None
}

/// The first two columns that are not read, and that are called a longitude and a latitude of the same things, which may be fixes.
pub fn degrees_beside<A: Allocator>(titles: &[&[u8]], columns: &Columns<A>) -> Option<Pair> {
    for (at, title) in titles.iter().enumerate() {
        let Some(longitude) = beside_longitude(title) else {
            continue;
        };
        if is_read(columns, at) || has_word(title, &OTHER_PLACES) {
            continue;
        }
        if let Some(second) = latitude_of(titles, columns, longitude) {
            return Some(Pair { first: at, second });
        }
    }
    None
}
