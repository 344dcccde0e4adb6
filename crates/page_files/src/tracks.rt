// The track of each animal of a report.

use crate::fault::{PageFault, animal_fault, refused, track_fault};
use crate::given::Track;
use page_levels::LevelFault;
use page_report::Report;
use range_fixes::{FixReader, ReadFault};
use range_plane::Scale;
use range_texts::Name;
use std::alloc::Global;

// The name of the animal of a track; none where no fix of it is used.
fn animal_of(alloc: Global, track: &Track, unit: Scale) -> Result<Option<Vec<u8>>, PageFault> {
    let mut reader = FixReader::new(alloc, track.bytes.as_slice(), unit);
    match reader.next() {
        Ok(_fix) => match reader.name() {
            Some(name) => Ok(Some(Vec::from_slice(alloc, name)?)),
            None => Ok(None),
        },
        Err(ReadFault::NoFixes) => Ok(None),
        Err(ReadFault::OutOfMemory) => Err(PageFault::OutOfMemory),
        Err(fault) => Err(track_fault(alloc, &track.file, LevelFault::Unread(fault))),
    }
}

// The place of the animal of a track in the report; none where no fix of it is used.
fn place_of(alloc: Global, report: &Report, track: &Track) -> Result<Option<usize>, PageFault> {
    let Some(name) = animal_of(alloc, track, report.unit)? else {
        return Ok(None);
    };
    let place = report
        .animals
        .iter()
        .position(|animal| animal.name.as_slice() == name.as_slice());
    match place {
        Some(place) => Ok(Some(place)),
        None => Err(animal_fault(alloc, &track.file, &name, "the report has no animal")),
    }
}

// Puts a track in the place of its animal.
fn put<'a>(
    alloc: Global,
    report: &Report,
    found: &mut [Option<&'a Track>],
    track: &'a Track,
) -> Result<(), PageFault> {
    let Some(place) = place_of(alloc, report, track)? else {
        return Ok(());
    };
    let (Some(own), Some(animal)) = (found.get_mut(place), report.animals.get(place)) else {
        return Ok(());
    };
    if own.is_some() {
        return Err(animal_fault(alloc, &track.file, &animal.name, "another file has animal"));
    }
    *own = Some(track);
    Ok(())
}

// The refusal of a report with an animal that has no track.
fn missing(alloc: Global, report: &Report, place: usize) -> PageFault {
    let name: &[u8] = match report.animals.get(place) {
        Some(animal) => &animal.name,
        None => b"",
    };
    let name = Name { bytes: name };
    refused(format!(in alloc; "tracks: no file has the animal {name} of the report"))
}

// The tracks of all animals, each of which has one.
fn whole<'a>(
    alloc: Global,
    report: &Report,
    found: &[Option<&'a Track>],
) -> Result<Vec<&'a Track>, PageFault> {
    let mut tracks = Vec::new(alloc);
    for (place, own) in found.iter().enumerate() {
        match own {
            Some(track) => tracks.push(*track)?,
            None => return Err(missing(alloc, report, place)),
        }
    }
    Ok(tracks)
}

// The track of each animal, in the order of the report. Tracks without a fix that is used are of no animal of it.
pub(crate) fn tracks_of<'a>(
    alloc: Global,
    report: &Report,
    tracks: &'a [Track],
) -> Result<Vec<&'a Track>, PageFault> {
    let mut found: Vec<Option<&Track>> = vec![in alloc; None; report.animals.len()]?;
    for track in tracks {
        put(alloc, report, &mut found, track)?;
    }
    whole(alloc, report, &found)
}
