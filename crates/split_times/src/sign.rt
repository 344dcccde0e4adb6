// The pieces of a form of times: signs, which stand for numbers and words, and bytes, which stand for themselves.

ghost use Rattle.std.specs.Prelude.{◌≡◌, ◌<◌, [], ◌∷◌, MatchOption, length};
ghost use Rattle.split_times.specs.Forms.{pieces_of, sign_of};

// What a sign stands for.
#[derive(Clone, Copy, PartialEq, Eq, Debug)]
pub(crate) enum Sign {
    // The year in four digits.
    Year,
    // The year in two digits.
    ShortYear,
    // The month in one digit or two.
    Month,
    // The first three letters of the month's English name.
    MonthName,
    // The day of the month.
    Day,
    // The day of the year.
    DayOfYear,
    // The hour from 0 to 23.
    Hour,
    // The hour from 1 to 12.
    HourOfHalf,
    // `am` or `pm`.
    Half,
    // The minute.
    Minute,
    // The second, which may have decimals.
    Second,
    // Nothing.
    Unknown,
}

// A piece of a form.
#[derive(Clone, Copy, PartialEq, Eq, Debug)]
pub(crate) enum Piece {
    // A byte that stands for itself.
    Byte(u8),
    // A sign.
    Sign(Sign),
}

// The sign of a letter behind `%`.
fn sign_of(letter: u8) -> Sign
    ensures { result ≡ sign_of letter }
{
    match letter {
        b'Y' => Sign::Year,
        b'y' => Sign::ShortYear,
        b'm' => Sign::Month,
        b'b' => Sign::MonthName,
        b'd' => Sign::Day,
        b'j' => Sign::DayOfYear,
        b'H' => Sign::Hour,
        b'I' => Sign::HourOfHalf,
        b'p' => Sign::Half,
        b'M' => Sign::Minute,
        b'S' => Sign::Second,
        _ => Sign::Unknown,
    }
}

// The first piece of a form, and what stands behind it; `None` where there is nothing.
pub(crate) fn first_piece(form: &[u8]) -> Option<(Piece, &[u8])>
    ensures { MatchOption result (pieces_of form.entry.now ≡ [])
        (λ found. (pieces_of form.entry.now ≡ found.0 ∷ pieces_of found.1.now) × (length found.1.now < length form.entry.now)) }
{
    let (byte, others) = form.split_first()?;
    if *byte != b'%' {
        return Some((Piece::Byte(*byte), others));
    }
    match others.split_first() {
        Some((letter, others)) => Some((Piece::Sign(sign_of(*letter)), others)),
        None => Some((Piece::Byte(*byte), others)),
    }
}
