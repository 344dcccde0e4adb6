// Moments, and why a text is none.

/// When a fix was: a whole second since 1970, and the rest of a second.
#[derive(Clone, Copy, PartialEq, Eq, Debug)]
pub struct Moment {
    pub second: u64,
    pub nanosecond: u32,
}

/// Why a text is no moment.
#[derive(Clone, Copy, PartialEq, Eq, Debug)]
pub enum TimeFault {
    /// It has another form, or the calendar or the clock has no such time.
    NotTime,
    /// More than nine digits stand behind the seconds.
    MoreThanNineDecimals,
    /// It was before 1970.
    Before1970,
}
