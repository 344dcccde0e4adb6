// Where points fall in lists.

use range_pieces::indices_in_both;
use range_plane::Point;

#[test]
fn a_point_falls_before_those_that_do_not_come_before_it(rt: HostRuntime) {
    let first = [Point { e: 5, n: 5 }];
    let second = [Point { e: 5, n: 6 }];
    for (e, n, expected) in [
        (5, 4, (0, 0)),
        (5, 5, (0, 0)),
        (5, 6, (1, 0)),
        (4, 9, (0, 0)),
        (6, 0, (1, 1)),
    ] {
        let p = Point { e, n };
        assert!(rt; indices_in_both(&first, &second, p) == expected, "{e},{n}");
    }
}
