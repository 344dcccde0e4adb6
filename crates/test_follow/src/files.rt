// Files whose rows and polygons were made by hand.

use std::alloc::Global;
use std::test::Fail;
use test_doubles::{FILE_A, FILE_B, ScriptedSource};

// The text of a file; its animal's name; the second, the corners and the doubled area of each of its rows;
// and the corners in the end.
#[derive(Clone, Copy)]
pub(crate) struct Case {
    pub(crate) text: &'static [u8],
    pub(crate) name: &'static [u8],
    pub(crate) rows: &'static [(u64, u32, u128)],
    pub(crate) corners: &'static [(i64, i64)],
}

// A square, and a fix within it.
pub(crate) const SQUARE: Case = Case {
    text: FILE_A,
    name: b"A",
    rows: &[
        (0, 1, 0),
        (60, 2, 0),
        (120, 3, 100),
        (180, 4, 200),
        (240, 4, 200),
    ],
    corners: &[(0, 0), (10, 0), (10, 10), (0, 10)],
};

// Fixes in a line.
pub(crate) const LINE: Case = Case {
    text: FILE_B,
    name: b"B",
    rows: &[(0, 1, 0), (60, 2, 0), (120, 2, 0)],
    corners: &[(5, 5), (20, 5)],
};

// The same point three times.
pub(crate) const STILL: Case = Case {
    text: b"animal,second,easting,northing\nC,0,7,7\nC,0,7,7\nC,0,7,7\n",
    name: b"C",
    rows: &[(0, 1, 0), (0, 1, 0), (0, 1, 0)],
    corners: &[(7, 7)],
};

// Fixes on a slope, one of them between two others. The name has 16 bytes.
pub(crate) const SLOPE: Case = Case {
    text: b"animal,second,easting,northing\nabcdefghijklmnop,0,0,0\nabcdefghijklmnop,0,2,2\nabcdefghijklmnop,0,1,1\nabcdefghijklmnop,0,4,4\n",
    name: b"abcdefghijklmnop",
    rows: &[(0, 1, 0), (0, 2, 0), (0, 2, 0), (0, 2, 0)],
    corners: &[(0, 0), (4, 4)],
};

// A corner that goes when the last fix comes. The name has 17 bytes.
pub(crate) const WEST: Case = Case {
    text: b"animal,second,easting,northing\nabcdefghijklmnopq,0,5,5\nabcdefghijklmnopq,0,6,5\nabcdefghijklmnopq,0,6,6\nabcdefghijklmnopq,0,0,5\n",
    name: b"abcdefghijklmnopq",
    rows: &[(0, 1, 0), (0, 2, 0), (0, 3, 1), (0, 3, 6)],
    corners: &[(0, 5), (6, 5), (6, 6)],
};

// A corner that goes, and two that stay. The name has 32 bytes, the most that one may have.
pub(crate) const EAST: Case = Case {
    text: b"animal,second,easting,northing\nabcdefghijklmnopqrstuvwxyz012345,0,0,0\nabcdefghijklmnopqrstuvwxyz012345,0,4,0\nabcdefghijklmnopqrstuvwxyz012345,0,5,2\nabcdefghijklmnopqrstuvwxyz012345,0,4,4\nabcdefghijklmnopqrstuvwxyz012345,0,0,4\nabcdefghijklmnopqrstuvwxyz012345,0,10,2\n",
    name: b"abcdefghijklmnopqrstuvwxyz012345",
    rows: &[
        (0, 1, 0),
        (0, 2, 0),
        (0, 3, 8),
        (0, 4, 20),
        (0, 5, 36),
        (0, 5, 56),
    ],
    corners: &[(0, 0), (4, 0), (10, 2), (4, 4), (0, 4)],
};

// The square of all coordinates.
pub(crate) const LIMITS: Case = Case {
    text: b"animal,second,easting,northing\nG,0,0,0\nG,0,16777216,0\nG,0,16777216,16777216\nG,0,0,16777216\n",
    name: b"G",
    rows: &[
        (0, 1, 0),
        (0, 2, 0),
        (0, 3, 281_474_976_710_656),
        (0, 4, 562_949_953_421_312),
    ],
    corners: &[
        (0, 0),
        (16_777_216, 0),
        (16_777_216, 16_777_216),
        (0, 16_777_216),
    ],
};

// Fixes outside the polygon of those before, and one within it.
pub(crate) const OUTWARD: Case = Case {
    text: b"animal,second,easting,northing\nH,0,0,0\nH,0,10,0\nH,0,10,10\nH,0,0,10\nH,0,15,5\nH,0,20,5\nH,0,5,5\n",
    name: b"H",
    rows: &[
        (0, 1, 0),
        (0, 2, 0),
        (0, 3, 100),
        (0, 4, 200),
        (0, 5, 250),
        (0, 5, 300),
        (0, 5, 300),
    ],
    corners: &[(0, 0), (10, 0), (20, 5), (10, 10), (0, 10)],
};

// Sources of the files.
pub(crate) fn sources_of(
    alloc: Global,
    cases: &[Case],
) -> Result<Vec<ScriptedSource<'static>>, Fail> {
    let mut sources = Vec::new(alloc);
    for case in cases {
        sources.push(ScriptedSource::new(case.text, 8192))?;
    }
    Ok(sources)
}
