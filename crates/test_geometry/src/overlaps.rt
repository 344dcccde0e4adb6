// Tests of overlaps.

use crate::points::{SEGMENT, SQUARE, columns_of, plain_at};
use range_stats::overlap;
use std::test::Fail;

#[test]
fn fixes_within_the_other_range_are_counted(rt: HostRuntime) -> Result<(), Fail> {
    let alloc = rt.alloc();
    let square = SQUARE.as_slice();
    let segment = SEGMENT.as_slice();
    let repeats = [(5, 5), (5, 5), (0, 0), (11, 5), (0, 0)];
    let cases = [
        (square, segment, 1),
        (segment, square, 2),
        (square, square, 5),
        (&repeats, square, 4),
        (&repeats, segment, 3),
        (&repeats, &[(5, 5)], 2),
        (&repeats, &[], 0),
        (&[], square, 0),
    ];
    for (fixes, range, count) in cases {
        let fixes = columns_of(alloc, fixes)?;
        let range = plain_at(&rt, alloc, range)?;
        assert_eq!(rt; overlap(&fixes, &range), count);
    }
    Ok(())
}
