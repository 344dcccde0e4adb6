// Tests of records that are read. Texts and what they say come from `record.py` of the package for Python: `record_text`,
// `read_record`, `left_out` and `of_source`.

use indexmap::IndexMap;
use page_record::{
    Counts, Given, Made, NO_COUNTS, Record, RecordFault, Zone, counts_at, left_of_all, place_in,
    read_record, records_of_all, system_of, tally, track_of,
};
use range_plane::Scale;
use split_tracks::Reason;
use std::alloc::Global;
use std::process::Abort;

const EXPORT: [u8; 64] = *b"d46aee08cc49f6d1eb41800c1d6bab4506c960c700cff0efffe490d7cb1de5e3";

const VIXEN: [u8; 64] = *b"9cf90bef112438f2194b5265ced5b68a45f8ab7fde95c8b65e9072a0e16cc96c";

const BOAR: [u8; 64] = *b"12070a74d292604b939978fc0de24a5e02e6293ecac4af595a0e2c997a41bdb9";

// A record with all kinds of lines.
const FULL: &[u8] = b"export,foxes.csv\n\
    sha256,d46aee08cc49f6d1eb41800c1d6bab4506c960c700cff0efffe490d7cb1de5e3\n\
    unit,dm\n\
    zone,33N\n\
    shift,-500000,1000000\n\
    option,animal,name\n\
    option,crs,EPSG:25833\n\
    option,mark,C:\\\\a\\x1b[0m\\u2028b\\x85\\u2029\n\
    option,skip-unnamed\n\
    option,type,3D, \"x\"\n\
    said,read 5 records\n\
    said,animal is 'a\\x5cb', tab\\x09here\n\
    left,,2,animal\n\
    left,old boar,4,outlier\n\
    left,vixen,3,no dop\n\
    left,vixen,1,every\n\
    track,vixen,12,11,9cf90bef112438f2194b5265ced5b68a45f8ab7fde95c8b65e9072a0e16cc96c\n\
    track,old boar,7,5,12070a74d292604b939978fc0de24a5e02e6293ecac4af595a0e2c997a41bdb9\n\
    tool,homerange-split 1.2.0 (logic x)\n";

// One with no line that may be missing.
const LEAST: &[u8] = b"unit,m\nzone,none\ntool,t\n";

// Whether an option has this name and this value.
fn is_given(given: &Given, name: &[u8], wanted: Option<&[u8]>) -> bool {
    let same = match (&given.value, wanted) {
        (Some(value), Some(wanted)) => value.as_slice() == wanted,
        (None, None) => true,
        _ => false,
    };
    same && given.name.as_slice() == name
}

// The record of a text.
fn read(alloc: Global, text: &[u8]) -> Result<Record, RecordFault> {
    read_record(alloc, text)
}

#[test]
fn what_tracks_were_made_of_is_read(rt: HostRuntime) {
    let Ok(own) = read(rt.alloc(), FULL) else {
        assert!(rt; false, "it is read");
        return;
    };
    match &own.export {
        Some(name) => assert!(rt; name.as_slice() == b"foxes.csv".as_slice(), "the export"),
        None => assert!(rt; false, "it has an export"),
    }
    assert!(rt; own.sum == Some(EXPORT), "its checksum");
    assert!(rt; own.unit == Scale::Decimetre, "the unit");
    let zone = Zone {
        number: 33,
        is_south: false,
    };
    assert!(rt; own.zone == Some(zone), "the zone");
    assert!(rt; own.shift == (-500_000, 1_000_000), "the shift");
}

#[test]
fn options_are_read_as_they_were_given(rt: HostRuntime) {
    let Ok(own) = read(rt.alloc(), FULL) else {
        assert!(rt; false, "it is read");
        return;
    };
    let [animal, crs, mark, skip, kind] = own.options.as_slice() else {
        assert!(rt; false, "it has five options");
        return;
    };
    assert!(rt; is_given(animal, b"animal", Some(b"name")), "a value");
    assert!(rt; is_given(crs, b"crs", Some(b"EPSG:25833")), "another");
    let value = b"C:\\a\x1B[0m\xE2\x80\xA8b\xC2\x85\xE2\x80\xA9";
    assert!(rt; is_given(mark, b"mark", Some(value)), "one with escapes");
    assert!(rt; is_given(skip, b"skip-unnamed", None), "no value");
    assert!(rt;
        is_given(kind, b"type", Some(b"3D, \"x\"")),
        "one with a comma"
    );
    match system_of(&own) {
        Some(system) => assert!(rt; system == b"EPSG:25833".as_slice(), "the reference system"),
        None => assert!(rt; false, "it has a reference system"),
    }
}

#[test]
fn what_was_said_and_what_said_it_is_read(rt: HostRuntime) {
    let Ok(own) = read(rt.alloc(), FULL) else {
        assert!(rt; false, "it is read");
        return;
    };
    let [first, second] = own.said.as_slice() else {
        assert!(rt; false, "it has two lines");
        return;
    };
    assert!(rt; first.as_slice() == b"read 5 records".as_slice(), "a line");
    let line = b"animal is 'a\\x5cb', tab\\x09here";
    assert!(rt;
        second.as_slice() == line.as_slice(),
        "one with escapes, as it stands"
    );
    let [tool] = own.tools.as_slice() else {
        assert!(rt; false, "it has a tool");
        return;
    };
    let name = b"homerange-split 1.2.0 (logic x)";
    assert!(rt; tool.as_slice() == name.as_slice(), "its name");
}

#[test]
fn what_was_left_out_is_read(rt: HostRuntime) {
    let Ok(own) = read(rt.alloc(), FULL) else {
        assert!(rt; false, "it is read");
        return;
    };
    let [none, boar, first, second] = own.left.as_slice() else {
        assert!(rt; false, "it has four lines");
        return;
    };
    assert!(rt; none.name.is_empty() && none.count == 2, "of no animal");
    assert!(rt; none.reason == Reason::Animal, "which is why");
    assert!(rt;
        boar.name.as_slice() == b"old boar".as_slice() && boar.count == 4,
        "of a boar"
    );
    assert!(rt; boar.reason == Reason::Outlier, "outliers");
    assert!(rt;
        first.count == 3 && first.reason == Reason::NoDop,
        "of a vixen"
    );
    assert!(rt;
        second.count == 1 && second.reason == Reason::Every,
        "for another reason"
    );
}

#[test]
fn tracks_are_found_by_their_animals(rt: HostRuntime) {
    let Ok(own) = read(rt.alloc(), FULL) else {
        assert!(rt; false, "it is read");
        return;
    };
    let vixen = Made {
        records: 12,
        used: 11,
        sum: VIXEN,
    };
    let boar = Made {
        records: 7,
        used: 5,
        sum: BOAR,
    };
    assert!(rt; own.tracks.len() == 2, "there are two");
    assert!(rt; track_of(&own, b"vixen") == Some(vixen), "the first");
    assert!(rt; track_of(&own, b"old boar") == Some(boar), "the second");
    assert!(rt; track_of(&own, b"old").is_none(), "and no other");
}

// How many fixes of an animal were left out for a reason.
fn left_of(table: &IndexMap<Vec<u8>, Counts>, animal: &[u8], reason: Reason) -> u128 {
    counts_at(table, animal).left[place_in(reason)]
}

#[test]
fn records_that_a_track_does_not_use_are_outliers(rt: HostRuntime) {
    let Ok(own) = read(rt.alloc(), FULL) else {
        assert!(rt; false, "it is read");
        return;
    };
    let Ok(table) = tally(rt.alloc(), &own) else {
        assert!(rt; false, "it is counted");
        return;
    };
    assert!(rt;
        left_of(&table, b"old boar", Reason::Outlier) == 6,
        "two of them are marked"
    );
    assert!(rt; left_of(&table, b"vixen", Reason::Outlier) == 1, "one is");
    assert!(rt;
        left_of(&table, b"vixen", Reason::NoDop) == 3,
        "others are left out"
    );
    assert!(rt;
        left_of(&table, b"vixen", Reason::Every) == 1,
        "for their reasons"
    );
    assert!(rt;
        left_of(&table, b"vixen", Reason::Animal) == 0,
        "and no other"
    );
    assert!(rt;
        left_of(&table, b"", Reason::Animal) == 2,
        "also of no animal"
    );
    assert!(rt; left_of_all(&own, Reason::Outlier) == 7, "outliers in all");
    assert!(rt; left_of_all(&own, Reason::NoDop) == 3, "and others");
}

#[test]
fn records_of_the_export_are_counted(rt: HostRuntime) {
    let Ok(own) = read(rt.alloc(), FULL) else {
        assert!(rt; false, "it is read");
        return;
    };
    let Ok(table) = tally(rt.alloc(), &own) else {
        assert!(rt; false, "it is counted");
        return;
    };
    assert!(rt; counts_at(&table, b"vixen").records == 16, "of an animal");
    assert!(rt; counts_at(&table, b"old boar").records == 11, "of another");
    assert!(rt; counts_at(&table, b"").records == 2, "of none");
    assert!(rt;
        counts_at(&table, b"badger") == NO_COUNTS,
        "of one that is not there"
    );
    assert!(rt; records_of_all(&own) == 29, "of all");
}

#[test]
fn a_record_of_a_frame_is_read(rt: HostRuntime) {
    let Ok(own) = read(rt.alloc(), LEAST) else {
        assert!(rt; false, "it is read");
        return;
    };
    assert!(rt;
        own.export.is_none() && own.sum.is_none(),
        "it has no export"
    );
    assert!(rt;
        own.unit == Scale::Metre && own.zone.is_none(),
        "a unit and no zone"
    );
    assert!(rt;
        own.shift == (0, 0) && system_of(&own).is_none(),
        "no shift and no system"
    );
    assert!(rt;
        own.options.is_empty() && own.said.is_empty(),
        "no lines of these kinds"
    );
    assert!(rt;
        own.left.is_empty() && own.tracks.is_empty(),
        "nor of these"
    );
    assert!(rt; records_of_all(&own) == 0, "no records");
}
