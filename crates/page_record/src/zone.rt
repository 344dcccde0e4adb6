// The zone of a line.

ghost use Rattle.std.specs.Prelude.{◌≡◌};
ghost use Rattle.page_record.specs.Zones.{is_south_in, zone_in, zone_of};

use crate::fields::number_up_to;

/// A UTM zone.
#[derive(Clone, Copy, PartialEq, Eq, Debug)]
pub struct Zone {
    /// From 1 to 60.
    pub number: u8,
    pub is_south: bool,
}

// Whether a letter is that of the south; none where it is of neither hemisphere.
fn is_south_in(letter: u8) -> Option<bool>
    ensures { result ≡ is_south_in letter }
{
    match letter {
        b'N' => Some(false),
        b'S' => Some(true),
        _ => None,
    }
}

// A zone, as `33N`.
#[tactic(auto, unfolding(crate::specs::Zones::zone_in))]
fn zone_in(text: &[u8]) -> Option<Zone>
    ensures { result ≡ zone_in text.now }
{
    let (letter, digits) = text.split_last()?;
    let is_south = is_south_in(*letter)?;
    let number = number_up_to(digits, 60)?;
    if number == 0 {
        return None;
    }
    Some(Zone {
        number: number as u8,
        is_south,
    })
}

// The zone of a line, which may be none.
#[tactic(auto, unfolding(crate::specs::Zones::zone_of))]
pub(crate) fn zone_of(text: &[u8]) -> Option<Option<Zone>>
    ensures { result ≡ zone_of text.now }
{
    if text == b"none".as_slice() {
        return Some(None);
    }
    match zone_in(text) {
        Some(zone) => Some(Some(zone)),
        None => None,
    }
}
