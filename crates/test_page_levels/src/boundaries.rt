// Tests of boundaries. `read_rings` of `homerange.write.page` refuses the same texts, but for the two at the end of the list: a ring
// whose lines stand apart, and an end of a line that Python takes for another.

use page_boundary::{BoundaryFault, read_boundary};
use page_map::Ground;
use std::alloc::Global;

const RINGS: &str =
    "ring,easting,northing\n1,0.000,-0.001\n1,999999999.999,07.250\n2,-999999999.999,3.500\n";

const FIRST: [(i64, i64); 2] = [(0, -1), (999_999_999_999, 7_250)];

const SECOND: [(i64, i64); 1] = [(-999_999_999_999, 3_500)];

// Texts that are no boundary, and the first line that may not stand there.
const REFUSED: [(&str, usize); 21] = [
    ("", 1),
    ("ring,easting,northing", 1),
    ("\u{feff}ring,easting,northing\n", 1),
    ("ring,easting,northing\n1,0.000,0.000", 2),
    ("ring,easting,northing\n\n", 2),
    ("ring,easting,northing\n0,0.000,0.000\n", 2),
    ("ring,easting,northing\n01,0.000,0.000\n", 2),
    ("ring,easting,northing\n2,0.000,0.000\n", 2),
    ("ring,easting,northing\n1,0.00,0.000\n", 2),
    ("ring,easting,northing\n1,0.0000,0.000\n", 2),
    ("ring,easting,northing\n1,.000,0.000\n", 2),
    ("ring,easting,northing\n1,0000000000.000,0.000\n", 2),
    ("ring,easting,northing\n1,+1.000,0.000\n", 2),
    ("ring,easting,northing\n1,--1.000,0.000\n", 2),
    ("ring,easting,northing\n1,1.000\n", 2),
    ("ring,easting,northing\n1,1.000,2.000,3.000\n", 2),
    ("ring,easting,northing\n1,1.000, 2.000\n", 2),
    ("ring,easting,northing\n1,0.000,0.000\n3,0.000,0.000\n", 3),
    (
        "ring,easting,northing\n1,0.000,0.000\n1,0,0\n2,0.000,0.000\n",
        3,
    ),
    (
        "ring,easting,northing\n1,0.000,0.000\n2,0.000,0.000\n1,1.000,0.000\n",
        4,
    ),
    ("ring,easting,northing\r\n", 1),
];

// Whether a ring goes through these places.
fn goes_through(ring: &[Ground], places: &[(i64, i64)]) -> bool {
    ring.iter()
        .map(|at| (at.east, at.north))
        .eq(places.iter().copied())
}

#[test]
fn rings_are_read_in_whole_millimetres(rt: HostRuntime) {
    let Ok(rings) = read_boundary(rt.alloc(), RINGS.as_bytes()) else {
        assert!(rt; false, "it is read");
        return;
    };
    let [first, second] = rings.as_slice() else {
        assert!(rt; false, "it has two rings");
        return;
    };
    assert!(rt; goes_through(first, &FIRST), "the first");
    assert!(rt; goes_through(second, &SECOND), "the second");
}

#[test]
fn a_boundary_may_have_no_ring(rt: HostRuntime) {
    let Ok(rings) = read_boundary(rt.alloc(), b"ring,easting,northing\n") else {
        assert!(rt; false, "it is read");
        return;
    };
    assert!(rt; rings.is_empty(), "it has no ring");
}

// The first line that is refused.
fn refused(alloc: Global, text: &str) -> Option<BoundaryFault> {
    read_boundary(alloc, text.as_bytes()).err()
}

#[test]
fn the_first_wrong_line_is_named(rt: HostRuntime) {
    for (text, number) in REFUSED {
        assert!(rt;
            refused(rt.alloc(), text) == Some(BoundaryFault::Line { number }),
            "{text}"
        );
    }
}
