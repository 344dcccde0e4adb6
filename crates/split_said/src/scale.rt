// How many times greater areas are on a grid of UTM than on the ground.

use crate::figures::push_hundredths;
use crate::said::Said;
use crate::sheet::units_of_metre;
use crate::stop::{Stop, refused};
use crate::tracks::Herd;
use crate::words::push;
use range_plane::Scale;
use split_refusal::Kind;
use split_tracks::Entry;
use std::alloc::{AllocError, Global};
use std::num::{nearest_i64_to_f64, nearest_u64_to_f64};

// The scale of lengths in the middle of a zone.
const IN_THE_MIDDLE: f64 = 0.9996;

// The mean radius of the earth in metres.
const EARTH: f64 = 6_371_008.8;

// How far an areal scale may be from 1 until it is said, and until it is refused.
const TOLD: f64 = 0.001;

const REFUSED: f64 = 0.01;

// An areal scale and the animal that has it.
#[derive(Clone, Copy)]
struct Worst {
    scale: f64,
    animal: u32,
}

// The areal scale of UTM at an easting in metres, on the sphere.
fn scale_at(easting: f64) -> f64 {
    let scale = IN_THE_MIDDLE * ((easting - 500_000.0) / (IN_THE_MIDDLE * EARTH)).cosh();
    scale * scale
}

// How far an areal scale is from 1.
fn wrong_by(scale: f64) -> f64 {
    (scale - 1.0).abs()
}

// The mean easting of the fixes of a track that are used, in metres; none where none is.
fn mean_easting(track: &[Entry], unit: Scale) -> Option<f64> {
    let mut sum = 0.0;
    let mut count = 0u64;
    for entry in track {
        if entry.is_used {
            sum = sum + nearest_i64_to_f64(entry.easting);
            count = count.saturating_add(1);
        }
    }
    if count == 0 {
        return None;
    }
    Some(sum / f64::from(units_of_metre(unit)) / nearest_u64_to_f64(count))
}

// The first of the areal scales that are farthest from 1.
fn worst_scale(herd: &Herd<'_>, unit: Scale) -> Option<Worst> {
    let mut worst: Option<Worst> = None;
    for animal in herd.order {
        if let Some(easting) = mean_easting(herd.track(*animal), unit) {
            let scale = scale_at(easting);
            let is_worse = match worst {
                Some(other) => wrong_by(scale) > wrong_by(other.scale),
                None => true,
            };
            if is_worse {
                worst = Some(Worst {
                    scale,
                    animal: *animal,
                });
            }
        }
    }
    worst
}

// By how much areas of an animal are wrong.
fn scale_text(alloc: Global, name: &[u8], scale: f64) -> Result<Vec<u8>, AllocError> {
    let mut text = Vec::new(alloc);
    if !scale.is_finite() {
        push(&mut text, "the fixes of ")?;
        text.extend_from_slice(name)?;
        push(&mut text, " have no place on this grid")?;
        return Ok(text);
    }
    push(&mut text, "areas of ")?;
    text.extend_from_slice(name)?;
    push(&mut text, " are ")?;
    push_hundredths(alloc, &mut text, wrong_by(scale) * 100.0)?;
    push(&mut text, " % too ")?;
    push(&mut text, if scale > 1.0 { "great" } else { "small" })?;
    push(&mut text, " on this grid")?;
    Ok(text)
}

// The same, with the remedy, of one animal or of several.
fn refused_text(
    alloc: Global,
    name: &[u8],
    scale: f64,
    are_several: bool,
) -> Result<Vec<u8>, AllocError> {
    let mut text = scale_text(alloc, name, scale)?;
    push(
        &mut text,
        ": take a zone or a reference system of the place",
    )?;
    if are_several {
        push(
            &mut text,
            ", or make a table of each place where animals live far apart",
        )?;
    }
    Ok(text)
}

// Refuses a zone in which areas of an animal are wrong by more than 1 %, and says where by more than 0.1 %.
pub(crate) fn check_scale(
    alloc: Global,
    said: &mut Said,
    herd: &Herd<'_>,
    unit: Scale,
) -> Result<(), Stop> {
    let Some(worst) = worst_scale(herd, unit) else {
        return Ok(());
    };
    let name = herd.name(worst.animal);
    let wrong = wrong_by(worst.scale);
    if !(wrong <= REFUSED) {
        let text = refused_text(alloc, name, worst.scale, herd.order.len() > 1);
        return Err(refused(alloc, Kind::Scale, None, text));
    }
    if wrong > TOLD {
        said.say(alloc, &scale_text(alloc, name, worst.scale)?)?;
    }
    Ok(())
}
