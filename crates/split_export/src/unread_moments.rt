// Texts of columns that are not read and are days with a clock.

// How many digits a day has at least, as 1/5/24 does, and one of digits alone.
const FEWEST_DIGITS: usize = 4;

const PLAIN_DIGITS: usize = 8;

// Whether a byte stands between the parts of a day.
fn is_between(byte: u8) -> bool {
    matches!(byte, b'-' | b'/' | b'.')
}

// Whether a text is a day: three numbers with signs between them, or eight digits.
fn is_day(text: &[u8]) -> bool {
    let digits = text.iter().filter(|byte| byte.is_ascii_digit()).count();
    let signs = text.iter().filter(|byte| is_between(**byte)).count();
    let is_parted = signs == 2 && FEWEST_DIGITS <= digits;
    let is_whole = signs == 0 && digits == PLAIN_DIGITS;
    (is_parted || is_whole) && digits.checked_add(signs) == Some(text.len())
}

// Whether a text begins with a clock.
fn begins_with_clock(text: &[u8]) -> bool {
    match text {
        [hour, b':', ..] => hour.is_ascii_digit(),
        [ten, hour, b':', ..] => ten.is_ascii_digit() && hour.is_ascii_digit(),
        _ => false,
    }
}

// Whether a text that begins with a clock is midnight, in 24 hours or in 12.
fn is_midnight(clock: &[u8]) -> bool {
    let end = clock.iter().position(|byte| !byte.is_ascii_digit() && !matches!(*byte, b':' | b'.'));
    let (numbers, rest) = clock.split_at(end.unwrap_or(clock.len()));
    let is_in_twelve = rest.trim_ascii().eq_ignore_ascii_case(b"am");
    let behind = match numbers.strip_prefix(b"12") {
        Some(behind) if is_in_twelve => behind,
        _ => numbers,
    };
    behind.iter().all(|byte| !(b'1'..=b'9').contains(byte))
}

// The clock behind the day of a text; none where it is no day with a clock.
fn clock_of(text: &[u8]) -> Option<&[u8]> {
    let end = text
        .iter()
        .position(|byte| matches!(*byte, b' ' | b'T' | b't'))?;
    let (day, rest) = text.split_at(end);
    let clock = rest.get(1..)?.trim_ascii();
    if is_day(day) && begins_with_clock(clock) {
        Some(clock)
    } else {
        None
    }
}

/// Which days with clocks all texts of a column are that are not missing.
#[derive(Clone, Copy, PartialEq, Eq, Debug)]
pub(crate) struct Moments {
    // Whether all are days with clocks, and whether one is not at midnight.
    are_moments: bool,
    has_clock: bool,
}

impl Moments {
    /// Those of no text.
    pub(crate) fn none() -> Moments {
        Moments {
            are_moments: true,
            has_clock: false,
        }
    }

    /// The same with one text more.
    pub(crate) fn with(self, text: &[u8]) -> Moments {
        if !self.are_moments {
            return self;
        }
        match clock_of(text.trim_ascii()) {
            Some(clock) => Moments {
                are_moments: true,
                has_clock: self.has_clock || !is_midnight(clock),
            },
            None => Moments {
                are_moments: false,
                has_clock: false,
            },
        }
    }

    /// Whether a text more may change what they are.
    pub(crate) fn are_open(&self) -> bool {
        self.are_moments
    }

    /// Whether all are days with clocks, and not all at midnight.
    pub(crate) fn have_clocks(&self) -> bool {
        self.are_moments && self.has_clock
    }
}
