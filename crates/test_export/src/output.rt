// Tests of what is written of a split: its record, the names of the files of its tracks, and what became of each record. The
// checksums were computed by `hashlib`.

use range_plane::Scale;
use split_chain::Split;
use split_counts::REASONS;
use split_export::TrackFile;
use split_output::{Origin, names_of_split, record_of_split};
use split_record::fates_text;
use split_said::{Grid, Said};
use split_times::Moment;
use split_tracks::{Entry, Fate, Reason};
use std::alloc::Global;
use std::test::Fail;

// What is expected of the record.
const RECORD: &[u8] =
    b"unit,m\nzone,none\nleft,,2,animal\nleft,Bor,1,coordinates\nleft,Vesna,3,every\n\
track,Vesna,4,3,9cf90bef112438f2194b5265ced5b68a45f8ab7fde95c8b65e9072a0e16cc96c\n\
track,Bor,5,5,12070a74d292604b939978fc0de24a5e02e6293ecac4af595a0e2c997a41bdb9\ntool,t\n";

// What is expected of the text of three records.
const LISTED: &[u8] =
    b"record,file,second,nanosecond,reason\n1,Bor,1714521610,500000000,\n2,,,,coordinates\n3,Vesna,,,no dop\n";

// The file of a track.
fn file(
    alloc: Global,
    name: &[u8],
    text: &[u8],
    records: usize,
    used: usize,
) -> Result<TrackFile, Fail> {
    Ok(TrackFile {
        name: Vec::from_slice(alloc, name)?,
        text: Vec::from_slice(alloc, text)?,
        records,
        used,
    })
}

// A split of two animals, of which the first by name has the second number.
fn split_of_two(alloc: Global) -> Result<Split, Fail> {
    let mut files = Vec::new(alloc);
    files.push(file(alloc, b"Vesna", b"vixen", 4, 3)?)?;
    files.push(file(alloc, b"Bor", b"old boar", 5, 5)?)?;
    let mut counts = vec![in alloc; 0usize; 3 * REASONS]?;
    counts[REASONS - 1] = 3;
    counts[REASONS + 1] = 1;
    counts[2 * REASONS] = 2;
    Ok(Split {
        files,
        order: Vec::from_slice(alloc, &[0, 1])?,
        counts,
        records: None,
        said: Said::new(alloc),
        grid: Grid {
            zone: None,
            of_zone: None,
            shift: (0, 0),
            is_projected: false,
        },
    })
}

#[test]
fn a_split_has_its_record_and_its_files(rt: HostRuntime) -> Result<(), Fail> {
    let alloc = rt.alloc();
    let split = split_of_two(alloc)?;
    let origin = Origin {
        exports: &[],
        unit: Scale::Metre,
        options: &[],
        tool: b"t",
    };
    let record = record_of_split(alloc, &origin, &split)?;
    assert!(rt; record.as_slice() == RECORD);
    let names = names_of_split(alloc, &split)?;
    let is_named = match names.as_slice() {
        [first, second] => first.as_str() == "Vesna.csv" && second.as_str() == "Bor.csv",
        _ => false,
    };
    assert!(rt; is_named);
    Ok(())
}

#[test]
fn each_record_has_its_line(rt: HostRuntime) -> Result<(), Fail> {
    let alloc = rt.alloc();
    let mut names = Vec::new(alloc);
    names.push(Vec::from_slice(alloc, b"Vesna")?)?;
    names.push(Vec::from_slice(alloc, b"Bor")?)?;
    let entry = Entry {
        record: 1,
        moment: Moment {
            second: 1714521610,
            nanosecond: 500000000,
        },
        easting: 3,
        northing: 4,
        is_used: true,
    };
    let fates = [
        Fate::InTrack { animal: 1, entry },
        Fate::LeftOut {
            animal: None,
            reason: Reason::Coordinates,
        },
        Fate::LeftOut {
            animal: Some(0),
            reason: Reason::NoDop,
        },
    ];
    let text = fates_text(alloc, &names, &fates)?;
    assert!(rt; text.as_slice() == LISTED);
    Ok(())
}
