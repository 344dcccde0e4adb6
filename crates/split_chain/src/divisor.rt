// What numbers have in common: of which lengths all are multiples.

// The most steps by which a greatest common divisor of two numbers of 64 bits is found.
const MOST_STEPS: usize = 128;

// The greatest common divisor of numbers, 0 of none and of zeros alone; the first of them, and whether another one differs.
#[derive(Clone, Copy)]
pub(crate) struct Divisor {
    greatest: u64,
    first: Option<i64>,
    differs: bool,
}

// The greatest common divisor of two numbers.
fn common(one: u64, other: u64) -> u64 {
    let mut great = one;
    let mut small = other;
    for _step in 0..MOST_STEPS {
        let Some(rest) = great.checked_rem(small) else {
            return great;
        };
        great = small;
        small = rest;
    }
    1
}

impl Divisor {
    // That of no number.
    pub(crate) fn none() -> Divisor {
        Divisor {
            greatest: 0,
            first: None,
            differs: false,
        }
    }

    // The same with one number more.
    pub(crate) fn with(self, number: i64) -> Divisor {
        let first = self.first.unwrap_or(number);
        Divisor {
            greatest: common(number.unsigned_abs(), self.greatest),
            first: Some(first),
            differs: self.differs || first != number,
        }
    }

    // That of the numbers of both.
    pub(crate) fn both(self, other: Divisor) -> Divisor {
        let differs = match (self.first, other.first) {
            (Some(one), Some(two)) => one != two,
            _ => false,
        };
        Divisor {
            greatest: common(self.greatest, other.greatest),
            first: self.first.or(other.first),
            differs: self.differs || other.differs || differs,
        }
    }

    // Whether the numbers are not all the same.
    pub(crate) fn differs(self) -> bool {
        self.differs
    }

    // Whether all are multiples of a length.
    pub(crate) fn is_multiple(self, length: u64) -> bool {
        self.greatest.checked_rem(length) == Some(0)
    }
}
