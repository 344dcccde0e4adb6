// Sentences about zones.

use crate::forms::without_blanks;
use crate::kind::Kind;
use crate::push::{Field, push, push_field, push_number};
use crate::refusal::{Refusal, Sentence, refusal_of};
use crate::said::shortened;
use range_plane::OutOfMemory;
use split_reading::zone_of;
use std::alloc::Global;

// A band of a zone.
#[derive(Clone, Copy)]
struct Band {
    letter: u8,
    number: u8,
}

// Whether a letter is that of a band, and of no hemisphere.
fn is_band(letter: u8) -> bool {
    matches!(
        letter.to_ascii_uppercase(),
        b'C'..=b'H' | b'J'..=b'M' | b'P'..=b'R' | b'T'..=b'X'
    )
}

// The band that a text names instead of a zone, if it does.
fn band_in(alloc: Global, text: &[u8]) -> Result<Option<Band>, OutOfMemory> {
    let Some((letter, before)) = without_blanks(text).split_last() else {
        return Ok(None);
    };
    if !is_band(*letter) {
        return Ok(None);
    }
    let mut northern = Vec::from_slice(alloc, before)?;
    northern.push(b'N')?;
    Ok(zone_of(&northern).map(|zone| Band {
        letter: *letter,
        number: zone.number,
    }))
}

// Appends which zone a band is in.
fn push_band(text: &mut Vec<u8>, band: Band) -> Result<(), OutOfMemory> {
    push(text, ": ")?;
    text.push(band.letter)?;
    push(text, " is a band, and the zone is ")?;
    push_number(text, u64::from(band.number))?;
    let is_south = band.letter.to_ascii_uppercase() < b'N';
    push(text, if is_south { "S" } else { "N" })?;
    Ok(())
}

// That a text is no zone.
fn no_zone(alloc: Global, own: &[u8]) -> Result<Vec<u8>, OutOfMemory> {
    let mut text = Vec::from_slice(alloc, own)?;
    push(&mut text, " is no zone as 33N")?;
    if let Some(band) = band_in(alloc, own)? {
        push_band(&mut text, band)?;
    }
    Ok(text)
}

// The same.
fn sentence(alloc: Global, own: &[u8]) -> Result<Sentence, OutOfMemory> {
    Ok(Sentence {
        kind: Kind::Zone,
        text: no_zone(alloc, own)?,
    })
}

/// The refusal of a text that is no zone, for who was told it in an option. One that names a band is told its zone.
pub fn refused_zone(alloc: Global, text: &[u8]) -> Refusal {
    refusal_of(alloc, None, sentence(alloc, text))
}

// Why a field in a column of zones is none.
pub(crate) fn zone_sentence(alloc: Global, field: Field<'_>) -> Result<Sentence, OutOfMemory> {
    let mut text = Vec::new(alloc);
    if zone_of(without_blanks(field.cell)).is_some() {
        let words = ": blanks beside a zone are not read yet, write it without";
        push_field(&mut text, field, words)?;
        return Ok(Sentence {
            kind: Kind::Unread,
            text,
        });
    }
    text.extend_from_slice(field.title)?;
    push(&mut text, ": ")?;
    let own = no_zone(alloc, field.cell)?;
    text.extend_from_slice(&shortened(alloc, &own)?)?;
    Ok(Sentence {
        kind: Kind::Zone,
        text,
    })
}
