// Tests of the tables of animals.

use crate::files::{File, judged};
use crate::reports::percent;
use range_analysis::{Analysis, Animal, OverlapRow};
use range_plane::Scale;
use range_pump::ThreadRuntime;
use std::alloc::Global;
use std::process::Abort;
use std::test::Fail;
use test_doubles::{SQUARE, are_at};

// A square and a fix within it, a line that ends at its corner, and one fix far from both.
const FOX: File = File {
    said: Ok(b"fox"),
    fixes: &SQUARE,
    mark: true,
};

const HARE: File = File {
    said: Ok(b"hare"),
    fixes: &[(0, 5, 5), (60, 10, 5), (120, 20, 5)],
    mark: true,
};

const OWL: File = File {
    said: Ok(b"owl"),
    fixes: &[(7, 1000, 2000)],
    mark: true,
};

fn analysis_of<R: ThreadRuntime + Abort>(
    rt: &R,
    alloc: Global,
    files: &[File],
    levels: &[u8],
) -> Result<Analysis, Fail> {
    Ok(judged(rt, alloc, files, levels)?.ok().ok_or("no analysis")?)
}

// What an animal is to be: its name, its box by its least and greatest corners, the second, corners and
// doubled area of each row, the corners of its polygon, and its percent polygons.
#[derive(Clone, Copy)]
pub(crate) struct Expected {
    name: &'static [u8],
    extent: [i64; 4],
    rows: &'static [(u64, u32, u128)],
    corners: &'static [(i64, i64)],
    percents: [(u8, u32, u32, u128); 3],
}

pub(crate) const FOX_TABLES: Expected = Expected {
    name: b"fox",
    extent: [0, 0, 10, 10],
    rows: &[
        (0, 1, 0),
        (60, 2, 0),
        (120, 3, 100),
        (180, 4, 200),
        (240, 4, 200),
    ],
    corners: &[(0, 0), (10, 0), (10, 10), (0, 10)],
    percents: [(50, 3, 3, 50), (95, 5, 4, 200), (100, 5, 4, 200)],
};

// The same of an animal `A`.
pub(crate) const A_TABLES: Expected = Expected {
    name: b"A",
    ..FOX_TABLES
};

pub(crate) const HARE_TABLES: Expected = Expected {
    name: b"hare",
    extent: [5, 5, 20, 5],
    rows: &[(0, 1, 0), (60, 2, 0), (120, 2, 0)],
    corners: &[(5, 5), (20, 5)],
    percents: [(50, 2, 2, 0), (95, 3, 2, 0), (100, 3, 2, 0)],
};

const OWL_TABLES: Expected = Expected {
    name: b"owl",
    extent: [1000, 2000, 1000, 2000],
    rows: &[(7, 1, 0)],
    corners: &[(1000, 2000)],
    percents: [(50, 1, 1, 0), (95, 1, 1, 0), (100, 1, 1, 0)],
};

fn has_extent(animal: &Animal, expected: [i64; 4]) -> bool {
    let extent = animal.extent;
    [extent.min_e, extent.min_n, extent.max_e, extent.max_n] == expected
}

fn has_rows(animal: &Animal, expected: &[(u64, u32, u128)]) -> bool {
    let rows = animal.rows.as_slice();
    rows.len() == expected.len()
        && rows.iter().zip(expected).all(|(row, &(second, corners, area2))| {
            row.second == second && row.corners == corners && row.area2 == area2
        })
}

fn has_percents(animal: &Animal, expected: [(u8, u32, u32, u128); 3]) -> bool {
    let expected = expected.map(|(level, kept, corners, area2)| percent(
        level, kept, corners, area2,
    ));
    animal.percents.as_slice() == expected.as_slice()
}

// Checks that the animals are these, in this order.
pub(crate) fn expect_animals(rt: &impl Abort, analysis: &Analysis, expected: &[Expected]) {
    let animals = analysis.animals.as_slice();
    assert_eq!(rt; animals.len(), expected.len());
    for (animal, expected) in animals.iter().zip(expected) {
        assert!(rt; animal.name.as_slice() == expected.name, "the name");
        assert!(rt; has_extent(animal, expected.extent), "the box");
        assert!(rt; has_rows(animal, expected.rows), "rows");
        assert!(rt;
            are_at(animal.polygon.corners(), expected.corners),
            "corners"
        );
        assert!(rt; has_percents(animal, expected.percents), "percents");
    }
}

pub(crate) const fn overlap(animal: u32, range: u32, count: u64, fixes: u32) -> OverlapRow {
    OverlapRow {
        animal,
        range,
        count,
        fixes,
    }
}

#[test]
fn animals_have_these_tables_in_the_order_of_their_files(rt: HostRuntime) -> Result<(), Fail> {
    let analysis = analysis_of(&rt, rt.alloc(), &[FOX, HARE, OWL], &[50, 95, 100])?;
    expect_animals(&rt, &analysis, &[FOX_TABLES, HARE_TABLES, OWL_TABLES]);
    assert!(rt; analysis.unit == Scale::Metre, "the unit");
    Ok(())
}

#[test]
fn each_two_animals_have_their_overlaps(rt: HostRuntime) -> Result<(), Fail> {
    let analysis = analysis_of(&rt, rt.alloc(), &[FOX, HARE, OWL], &[100])?;
    let expected = [
        overlap(0, 1, 1, 5),
        overlap(0, 2, 0, 5),
        overlap(1, 0, 2, 3),
        overlap(1, 2, 0, 3),
        overlap(2, 0, 0, 1),
        overlap(2, 1, 0, 1),
    ];
    assert!(rt; analysis.overlaps.as_slice() == expected.as_slice());
    Ok(())
}

#[test]
fn a_level_that_is_repeated_has_its_polygon_twice(rt: HostRuntime) -> Result<(), Fail> {
    let analysis = analysis_of(&rt, rt.alloc(), &[FOX, HARE, OWL], &[7, 7])?;
    for animal in analysis.animals.as_slice() {
        let percents = animal.percents.as_slice();
        assert!(rt; percents == [percent(7, 1, 1, 0), percent(7, 1, 1, 0)].as_slice());
    }
    Ok(())
}

#[test]
fn one_animal_without_levels_has_neither_percents_nor_overlaps(
    rt: HostRuntime,
) -> Result<(), Fail> {
    let analysis = analysis_of(&rt, rt.alloc(), &[HARE], &[])?;
    let [hare] = analysis.animals.as_slice() else {
        return Err(Fail::from("one animal"));
    };
    assert!(rt; hare.percents.as_slice().is_empty());
    assert!(rt; analysis.overlaps.as_slice().is_empty());
    Ok(())
}
