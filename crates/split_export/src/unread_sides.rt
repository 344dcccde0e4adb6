// The sides of the Earth that texts of columns that are not read say.

use split_titles::dictionary::{
    EASTS, HEMISPHERES as BEHIND, LATITUDES, LONGITUDES, NO_SIDES, NORTHS,
    PLACES_AND_GROUPS as PLACES, SIDE_TITLES, SOUTHS, WESTS,
};
use split_titles::has_word;

// A side of the Earth.
#[derive(Clone, Copy, PartialEq, Eq)]
enum Side {
    North,
    South,
    East,
    West,
    // The letter O, which is the east in some languages, and in others the west.
    O,
}

// Whether a column of this title may name places or groups, which are called by sides too, or what is no side of a fix.
fn has_other_sides(title: &[u8]) -> bool {
    has_word(title, &PLACES) || has_word(title, &NO_SIDES)
}

// Whether a title has words for both sides of an axis, as `North/South`.
fn has_both(title: &[u8]) -> bool {
    has_word(title, &NORTHS) && has_word(title, &SOUTHS)
        || has_word(title, &EASTS) && has_word(title, &WESTS)
}

// The side that a letter is.
fn side_of_letter(letter: u8) -> Option<Side> {
    match letter {
        b'N' | b'n' => Some(Side::North),
        b'S' | b's' => Some(Side::South),
        b'E' | b'e' => Some(Side::East),
        b'W' | b'w' => Some(Side::West),
        b'O' | b'o' => Some(Side::O),
        _ => None,
    }
}

// The side that a word is.
fn side_of_word(word: &[u8]) -> Option<Side> {
    if has_word(word, &NORTHS) {
        Some(Side::North)
    } else if has_word(word, &SOUTHS) {
        Some(Side::South)
    } else if has_word(word, &EASTS) {
        Some(Side::East)
    } else if has_word(word, &WESTS) {
        Some(Side::West)
    } else {
        None
    }
}

// The first word of a text, without a point, if it stands alone or before a word that may stand behind a side; or else none.
fn first_of(text: &[u8]) -> &[u8] {
    let text = text.trim_ascii();
    let end = text.iter().position(|byte| *byte == b' ');
    let (first, rest) = text.split_at(end.unwrap_or(text.len()));
    if rest.is_empty() || has_word(rest, &BEHIND) {
        first.strip_suffix(b".").unwrap_or(first)
    } else {
        b""
    }
}

// Whether letters of a column of this title may be sides by it: where it says so, or stands beside coordinates.
fn may_have_letters(title: &[u8], is_beside: bool) -> bool {
    let is_titled = has_word(title, &SIDE_TITLES) || has_word(title, &BEHIND) || has_both(title);
    let is_of_axis = has_word(title, &LONGITUDES) || has_word(title, &LATITUDES);
    is_beside || is_titled || is_of_axis
}

// The side that a text says, where nothing else is called so.
fn side_of(text: &[u8], are_others: bool) -> Option<Side> {
    match text {
        _ if are_others => None,
        [letter] => side_of_letter(*letter),
        _ => match first_of(text) {
            [letter] => side_of_letter(*letter),
            word => side_of_word(word),
        },
    }
}

// Whether a side is that of degrees below 0, of degrees above 0.
fn is_against(side: Option<Side>, degrees: Option<(i64, i64)>) -> bool {
    match (side, degrees) {
        (Some(Side::South), Some((_, latitude))) => latitude > 0,
        (Some(Side::West), Some((longitude, _))) => longitude > 0,
        _ => false,
    }
}

// Whether a side is `O`, of a longitude above 0.
fn may_be_against(side: Option<Side>, degrees: Option<(i64, i64)>) -> bool {
    match (side, degrees) {
        (Some(Side::O), Some((longitude, _))) => longitude > 0,
        _ => false,
    }
}

/// Which sides all texts of a column say that are not missing.
#[derive(Clone, Copy, PartialEq, Eq, Debug)]
pub(crate) struct Sides {
    // Whether the column may have names of places, or other things which are called by sides too.
    are_others: bool,
    // Whether a letter may be a side by the title and the place of the column, and whether one text is a word for a side.
    may_have_letters: bool,
    has_word: bool,
    // Whether all are north or south, and whether all are east or west.
    are_of_latitude: bool,
    are_of_longitude: bool,
    // Whether one is south or west of a latitude or a longitude above 0; whether one is `O` of such a longitude, and whether one is east.
    is_against: bool,
    may_be_against: bool,
    has_east: bool,
}

impl Sides {
    /// Those of no text, of a column of this title, which stands beside one of coordinates or not.
    pub(crate) fn none(title: &[u8], is_beside: bool) -> Sides {
        Sides {
            are_others: has_other_sides(title),
            may_have_letters: may_have_letters(title, is_beside),
            has_word: false,
            are_of_latitude: true,
            are_of_longitude: true,
            is_against: false,
            may_be_against: false,
            has_east: false,
        }
    }

    /// The same with one text more, of a record with these degrees, or without coordinates.
    pub(crate) fn with(self, text: &[u8], degrees: Option<(i64, i64)>) -> Sides {
        if !self.are_some() {
            return self;
        }
        let side = side_of(text, self.are_others);
        let is_of_latitude = matches!(side, Some(Side::North | Side::South));
        let is_of_longitude = matches!(side, Some(Side::East | Side::West | Side::O));
        Sides {
            are_others: self.are_others,
            may_have_letters: self.may_have_letters,
            has_word: self.has_word || text.len() > 1,
            are_of_latitude: self.are_of_latitude && is_of_latitude,
            are_of_longitude: self.are_of_longitude && is_of_longitude,
            is_against: self.is_against || is_against(side, degrees),
            may_be_against: self.may_be_against || may_be_against(side, degrees),
            has_east: self.has_east || side == Some(Side::East),
        }
    }

    /// Whether all are sides of one kind.
    pub(crate) fn are_some(&self) -> bool {
        self.are_of_latitude || self.are_of_longitude
    }

    // Whether they are sides, and no letters that stand for something else, as `S` and `N` do for yes and no.
    fn are_sides(&self) -> bool {
        self.are_some() && (self.may_have_letters || self.has_word || self.has_east)
    }

    /// Whether they say that latitudes are south or longitudes west, which have no minus.
    pub(crate) fn are_against(&self) -> bool {
        self.are_sides() && (self.is_against || self.may_be_against && self.has_east)
    }
}
