// Fixes, and what is said of how they lie. What is expected was counted by hand.

/// A fix: its second, its easting and its northing.
pub(crate) type Sighting = (u64, i64, i64);

/// Fixes, and what is said of them: places, repeats and clashes; periods of 24 hours and those that half of the fixes take; the
/// longest gap; and the fastest step with the square of its length.
pub(crate) struct Case {
    pub fixes: &'static [Sighting],
    pub places: (usize, usize, usize),
    pub periods: (u64, usize),
    pub gap: Option<(u64, u64)>,
    pub fastest: Option<(u64, u64, u128)>,
    pub what: &'static str,
}

pub(crate) const CASES: [Case; 9] = [
    Case {
        fixes: &[(7, 3, 4)],
        places: (1, 0, 0),
        periods: (1, 1),
        gap: None,
        fastest: None,
        what: "one fix",
    },
    Case {
        fixes: &[(0, 0, 0), (100, 30, 40), (300, 30, 40)],
        places: (2, 0, 0),
        periods: (1, 1),
        gap: Some((100, 300)),
        fastest: Some((0, 100, 2500)),
        what: "a step and a rest",
    },
    Case {
        fixes: &[(5, 0, 0), (5, 0, 0), (9, 8, 0), (9, 8, 0), (9, 8, 0)],
        places: (2, 3, 0),
        periods: (1, 1),
        gap: Some((5, 9)),
        fastest: Some((5, 9, 64)),
        what: "pasted twice and three times",
    },
    Case {
        fixes: &[(5, 0, 0), (5, 1, 0), (5, 0, 0), (6, 1, 1), (6, 0, 2)],
        places: (4, 1, 2),
        periods: (1, 1),
        gap: Some((5, 6)),
        fastest: Some((5, 6, 2)),
        what: "two collars in one file",
    },
    Case {
        fixes: &[(0, 0, 0), (10, 10, 0), (20, 20, 0), (40, 50, 0)],
        places: (4, 0, 0),
        periods: (1, 1),
        gap: Some((20, 40)),
        fastest: Some((20, 40, 900)),
        what: "the last step is the fastest, 1.5 units a second beside 1",
    },
    Case {
        fixes: &[(0, 0, 0), (10, 10, 0), (30, 30, 0)],
        places: (3, 0, 0),
        periods: (1, 1),
        gap: Some((10, 30)),
        fastest: Some((0, 10, 100)),
        what: "of two steps as fast the first",
    },
    Case {
        fixes: &[
            (0, 0, 0),
            (86_399, 1, 0),
            (86_400, 2, 0),
            (172_800, 3, 0),
            (172_801, 4, 0),
            (172_802, 5, 0),
        ],
        places: (6, 0, 0),
        periods: (3, 1),
        gap: Some((86_400, 172_800)),
        fastest: Some((86_399, 86_400, 1)),
        what: "days begin at the first fix, and half of the fixes are in one of three",
    },
    Case {
        fixes: &[
            (1_000, 0, 0),
            (87_400, 1, 0),
            (173_800, 2, 0),
            (260_200, 3, 0),
            (950_000, 4, 0),
        ],
        places: (5, 0, 0),
        periods: (11, 3),
        gap: Some((260_200, 950_000)),
        fastest: Some((1_000, 87_400, 1)),
        what: "days without a fix count, and half of five fixes are three",
    },
    Case {
        fixes: &[
            (0, 0, 0),
            (1, 100_000_000, 100_000_000),
            (5_000_000_000, 0, 0),
        ],
        places: (2, 0, 0),
        periods: (57_871, 1),
        gap: Some((1, 5_000_000_000)),
        fastest: Some((0, 1, 20_000_000_000_000_000)),
        what: "as far and as long as it goes",
    },
];
