// Tests of the counts of records that are left out.

use range_plane::OutOfMemory;
use split_counts::{REASONS, count_of, left_counts};
use split_times::Moment;
use split_tracks::{Entry, Fate, Reason};
use std::test::Fail;
use test_doubles::Refusing;

// A record in the track of an animal.
fn in_track(animal: u32) -> Fate {
    let entry = Entry {
        record: 1,
        moment: Moment {
            second: 0,
            nanosecond: 0,
        },
        easting: 0,
        northing: 0,
        is_used: true,
    };
    Fate::InTrack { animal, entry }
}

// A record that is left out.
fn left(animal: Option<u32>, reason: Reason) -> Fate {
    Fate::LeftOut { animal, reason }
}

// All reasons, in their order.
const ALL: [Reason; 14] = [
    Reason::Animal,
    Reason::Coordinates,
    Reason::Zero,
    Reason::Sensor,
    Reason::Outlier,
    Reason::Class,
    Reason::NoDop,
    Reason::Dop,
    Reason::Type,
    Reason::Before,
    Reason::After,
    Reason::Grid,
    Reason::Speed,
    Reason::Every,
];

#[test]
fn records_are_counted_by_animal_and_reason(rt: HostRuntime) -> Result<(), Fail> {
    let fates = [
        left(Some(1), Reason::Outlier),
        in_track(0),
        left(None, Reason::Animal),
        left(Some(0), Reason::Every),
        left(Some(1), Reason::Coordinates),
        left(Some(1), Reason::Outlier),
        left(None, Reason::Animal),
        in_track(1),
        left(None, Reason::Animal),
        left(None, Reason::Dop),
    ];
    let counts = left_counts(rt.alloc(), &fates, 2)?;
    let expected = [
        0, 0, 0, 0, 0, 0, 0, 0, 0, 0, 0, 0, 0, 1, 0, 1, 0, 0, 2, 0, 0, 0, 0, 0, 0, 0, 0, 0, 3, 0,
        0, 0, 0, 0, 0, 1, 0, 0, 0, 0, 0, 0,
    ];
    assert!(&rt; counts.as_slice() == expected.as_slice(), "the counts");
    for (animal, reason, count) in [
        (Some(0), Reason::Every, 1),
        (Some(0), Reason::Outlier, 0),
        (Some(1), Reason::Coordinates, 1),
        (Some(1), Reason::Outlier, 2),
        (None, Reason::Animal, 3),
        (None, Reason::Dop, 1),
        (None, Reason::Outlier, 0),
    ] {
        assert!(&rt;
            count_of(&counts, 2, animal, reason) == count,
            "{animal:?}, {reason:?}"
        );
    }
    Ok(())
}

#[test]
fn each_reason_has_a_count_of_its_own(rt: HostRuntime) -> Result<(), Fail> {
    assert!(&rt; REASONS == 14, "how many there are");
    for (place, reason) in ALL.iter().enumerate() {
        for animal in [Some(0), Some(1), Some(2), None] {
            let fates = [left(animal, *reason), in_track(0)];
            let counts = left_counts(rt.alloc(), &fates, 3)?;
            let before = match animal {
                Some(0) => 0,
                Some(1) => 14,
                Some(2) => 28,
                _ => 42,
            };
            assert!(&rt; counts.len() == 56, "14 of each animal and of none");
            assert!(&rt;
                counts.iter().position(|count| *count == 1) == Some(before + place)
                    && counts.iter().filter(|count| **count == 0).count() == 55,
                "{animal:?}, {reason:?}"
            );
            for other in ALL {
                assert!(&rt;
                    count_of(&counts, 3, animal, other) == usize::from(other == *reason),
                    "{animal:?}, {reason:?}, {other:?}"
                );
            }
        }
    }
    Ok(())
}

#[test]
fn other_animals_are_not_counted(rt: HostRuntime) -> Result<(), Fail> {
    let fates = [
        left(Some(1), Reason::Animal),
        left(Some(2), Reason::Animal),
        left(Some(u32::MAX), Reason::Every),
        in_track(0),
        in_track(u32::MAX),
    ];
    let counts = left_counts(rt.alloc(), &fates, 1)?;
    assert!(&rt;
        counts.len() == 28 && counts.iter().all(|count| *count == 0),
        "of one animal"
    );
    let none = left_counts(rt.alloc(), &fates, 0)?;
    assert!(&rt;
        none.len() == 14 && none.iter().all(|count| *count == 0),
        "of no animal"
    );
    for animal in [Some(1), Some(2), Some(u32::MAX)] {
        assert!(&rt;
            count_of(&[9; 28], 1, animal, Reason::Animal) == 0,
            "{animal:?}"
        );
    }
    let refusing = Refusing::new(rt.alloc(), 1);
    let refused = left_counts(&refusing, &fates, 1);
    assert!(&rt;
        refused.err() == Some(OutOfMemory) && refusing.has_refused(),
        "without memory"
    );
    Ok(())
}
