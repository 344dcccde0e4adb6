// Tables and the page of a folder.

use crate::folder::{
    ANIMALS, BOUNDARY, FIRST_TRACK, OVERLAPS, PAGE_SUM, PROGRAM, PROGRAM_SUM, RECORD, REPORT,
    SECOND_TRACK, SUMMARY,
};
use page_files::{Files, Given, PageFault, Track, Words, files_of};
use page_html::Made;
use sha2::{Digest, Sha256};
use split_clock::Clock;
use std::alloc::{AllocError, Global};

// A track.
fn track(alloc: Global, file: &str, text: &str) -> Result<Track, AllocError> {
    Ok(Track {
        file: String::from_str(alloc, file)?,
        bytes: Vec::from_slice(alloc, text.as_bytes())?,
    })
}

// Both tracks, the second first.
pub(crate) fn tracks(alloc: Global, first: &str, second: &str) -> Result<Vec<Track>, AllocError> {
    let mut tracks = Vec::new(alloc);
    tracks.push(track(alloc, "fox.csv", second)?)?;
    tracks.push(track(alloc, "a&b.csv", first)?)?;
    Ok(tracks)
}

// What was typed in.
pub(crate) fn typed(clock: &Clock) -> Words<'_> {
    Words {
        page: page_html::Words {
            title: Some(b"T <1>"),
            study: None,
            species: None,
            by: Some(b"me"),
            reference: Some(b"7 & 8"),
            purpose: None,
            boundary: Some(b"Park"),
        },
        made: Made {
            day: Some((2026, 11, 30)),
            version: PROGRAM,
            sum: Some(PROGRAM_SUM),
        },
        zone: b"UTC",
        clock,
        system: None,
        shift: (0, 0),
        differences: None,
        is_alone: false,
        is_data: false,
    }
}

// The files of the folder.
fn files(alloc: Global) -> Result<Files, PageFault> {
    let tracks = tracks(alloc, FIRST_TRACK, SECOND_TRACK)?;
    let clock = Clock::utc();
    let given = Given {
        report: REPORT.as_bytes(),
        record: Some(RECORD.as_bytes()),
        boundary: Some(BOUNDARY.as_bytes()),
        tracks: Some(&tracks),
    };
    files_of(alloc, &given, &typed(&clock))
}

// The checksum of some bytes.
fn sum_of(bytes: &[u8]) -> [u8; 64] {
    let digest = Sha256::digest(bytes);
    let mut digits = [0; 64];
    hex::encode_to_slice(digest, &mut digits).unwrap();
    digits
}

#[test]
fn tables_and_page_are_those_of_the_package(rt: HostRuntime) {
    let Ok(files) = files(rt.alloc()) else {
        assert!(rt; false, "the folder is right");
        return;
    };
    assert!(rt; files.summary.as_slice() == SUMMARY.as_bytes(), "{SUMMARY}");
    assert!(rt; files.animals.as_slice() == ANIMALS.as_bytes(), "{ANIMALS}");
    assert!(rt;
        files.overlaps.as_slice() == OVERLAPS.as_bytes(),
        "{OVERLAPS}"
    );
    assert!(rt;
        sum_of(&files.page).as_slice() == PAGE_SUM.as_bytes(),
        "{PAGE_SUM}"
    );
}

// The first track with a fix that is not used.
const WITH_UNUSED: &str = "animal,second,easting,northing,use\n\
    a&b,1711929600,500100,5000100,1\n\
    a&b,1711940000,500100,5000100,0\n\
    a&b,1711951200,500300,5000100,1\n\
    a&b,1711972800,500300,5000400,1\n\
    a&b,1712016000,500150,5000350,1\n";

// The page of tracks without a record.
fn page_without_record(alloc: Global, first: &str) -> Result<Vec<u8>, PageFault> {
    let tracks = tracks(alloc, first, SECOND_TRACK)?;
    let clock = Clock::utc();
    let given = Given {
        report: REPORT.as_bytes(),
        record: None,
        boundary: Some(BOUNDARY.as_bytes()),
        tracks: Some(&tracks),
    };
    Ok(files_of(alloc, &given, &typed(&clock))?.page)
}

// Whether a text begins with these words at a place.
fn begins(text: &[u8], place: usize, words: &str) -> bool {
    text.get(place..)
        .is_some_and(|rest| rest.starts_with(words.as_bytes()))
}

// Whether a page has these words.
fn has(page: Result<Vec<u8>, PageFault>, words: &str) -> bool {
    match page {
        Ok(page) => (0..page.len()).any(|place| begins(&page, place, words)),
        Err(_fault) => false,
    }
}

#[test]
fn of_tracks_without_a_record_it_is_known_what_is_not_used(rt: HostRuntime) {
    let alloc = rt.alloc();
    let words = "Of 8 fixes of the data 1 were left out: 1 not in use, as the data said.";
    assert!(rt;
        has(page_without_record(alloc, WITH_UNUSED), words),
        "{words}"
    );
    let words = "How many fixes were left out is not known.";
    assert!(rt;
        has(page_without_record(alloc, FIRST_TRACK), words),
        "{words}"
    );
}
