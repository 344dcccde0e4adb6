// Times of which a number has lost the zeros at its end, as spreadsheets take 7.30 for a number.

// What is seen of times so far: the first that lacks a digit behind its point, the first that ends with the month 1, and whether one ends
// with the month 10.
#[derive(Clone, Copy)]
pub(crate) struct Zeros {
    lost: Option<u32>,
    first: Option<u32>,
    has_ten: bool,
}

// What stands behind the first point of a text; none where there is none.
fn behind_point(text: &[u8]) -> Option<&[u8]> {
    let point = text.iter().position(|byte| *byte == b'.')?;
    text.get(point.saturating_add(1)..)
}

// How many digits stand behind the point of a part of a form of two signs that a spreadsheet may take for a number; none where it is no
// such part, or where the number behind the point may have fewer.
fn digits_of(part: &[u8]) -> Option<usize> {
    match part {
        b"%H.%M" | b"%I.%M" => Some(2),
        b"%Y.%j" | b"%y.%j" => Some(3),
        _ => None,
    }
}

// Whether a part of a form is a day and a month.
fn is_day_and_month(part: &[u8]) -> bool {
    matches!(part, b"%d.%m")
}

impl Zeros {
    // Nothing of no time.
    pub(crate) fn none() -> Zeros {
        Zeros {
            lost: None,
            first: None,
            has_ten: false,
        }
    }

    // The same with a part of the time of a record, for which this part of a form stands.
    fn with_part(self, record: u32, text: &[u8], part: &[u8]) -> Zeros {
        let Some(behind) = behind_point(text) else {
            return self;
        };
        let lacks = digits_of(part).is_some_and(|digits| behind.len() < digits);
        let is_month = is_day_and_month(part);
        let lost = if lacks { Some(record) } else { None };
        let first = if is_month && matches!(behind, b"1") {
            Some(record)
        } else {
            None
        };
        Zeros {
            lost: self.lost.or(lost),
            first: self.first.or(first),
            has_ten: self.has_ten || is_month && matches!(behind, b"10"),
        }
    }

    // The same with the time of a record, which has this form.
    pub(crate) fn with(self, record: u32, text: &[u8], form: &[u8]) -> Zeros {
        let mut zeros = self;
        let texts = text.split(|byte| *byte == b' ');
        for (own, part) in texts.zip(form.split(|byte| *byte == b' ')) {
            zeros = zeros.with_part(record, own, part);
        }
        zeros
    }

    // The first record whose time may have lost a zero.
    pub(crate) fn first_lost(&self) -> Option<u32> {
        match self.lost {
            None if !self.has_ten => self.first,
            lost => lost,
        }
    }
}
