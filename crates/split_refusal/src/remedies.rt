// What is to be done about fields that are no numbers, and no times.

use crate::digits::is_number;
use crate::forms::{has_iso_day, has_iso_form, without_blanks};
use crate::push::push;
use range_plane::OutOfMemory;
use split_times::Forms;
use split_titles::clock_of_half;
use std::alloc::{AllocError, Global};

// The most bytes of a word that may stand for what is missing.
const WORD_BYTES: usize = 20;

// Forms of days, the first also of a clock before it.
const DAYS: [&str; 17] = [
    "%H:%M:%S %d-%b-%Y",
    "%d.%m.%Y",
    "%d.%m.%y",
    "%m/%d/%Y",
    "%d/%m/%Y",
    "%m/%d/%y",
    "%d/%m/%y",
    "%m-%d-%Y",
    "%d-%m-%Y",
    "%Y/%m/%d",
    "%Y.%m.%d",
    "%Y-%m-%d",
    "%Y %m %d",
    "%d-%b-%Y",
    "%d-%b-%y",
    "%d %b %Y",
    "%b %d %Y",
];

// Forms of clocks behind a day.
const CLOCKS: [&str; 15] = [
    "",
    " %H:%M:%S",
    " %H:%M",
    " %I:%M:%S %p",
    " %I:%M %p",
    ", %H:%M:%S",
    ", %H:%M",
    ", %I:%M:%S %p",
    " %H%M%S",
    " %H%M",
    " %H.%M.%S",
    " %H.%M",
    " %Hh%M",
    "_%H:%M:%S",
    "_%H:%M",
];

// Whether a byte may stand in a word for what is missing, and needs no quotes there.
fn is_plain(byte: u8) -> bool {
    byte.is_ascii_alphabetic() || byte == b'/' || byte == b'.' || byte == b'-' || byte == b'_'
}

// Whether a byte may stand in such a word between quotes.
fn is_of_word(byte: u8) -> bool {
    (byte.is_ascii_graphic() || byte == b' ')
        && !byte.is_ascii_digit()
        && byte != b','
        && byte != b'\''
        && byte != b'"'
}

// Whether a field may be a word for what is missing.
fn is_word(cell: &[u8]) -> bool {
    let is_short = !cell.is_empty() && cell.len() <= WORD_BYTES;
    is_short && without_blanks(cell) == cell && cell.iter().all(|byte| is_of_word(*byte))
}

// How a number is to be written that is written otherwise than it is read.
fn words_of_number(cell: &[u8]) -> Option<&'static str> {
    let begins = cell.iter().any(|byte| byte.is_ascii_digit());
    if !begins || !cell.iter().all(|byte| is_of_number(*byte)) {
        None
    } else if cell.contains(&b',') {
        Some(": write its decimals behind a point, and nothing before thousands")
    } else if cell.iter().any(|byte| byte.eq_ignore_ascii_case(&b'e')) {
        Some(": write all of its digits")
    } else if cell.starts_with(b"+") {
        Some(": write it without +")
    } else {
        None
    }
}

// A text without the letter of a side, or the sign of degrees, at its end.
fn without_side(cell: &[u8]) -> &[u8] {
    match cell {
        [
            start @ ..,
            b'N' | b'S' | b'E' | b'W' | b'O' | b'n' | b's' | b'e' | b'w' | b'o',
        ] => start,
        [start @ .., 0xC2, 0xB0] => start,
        _ => cell,
    }
}

// A text without the letter of a side at its start.
fn without_side_before(cell: &[u8]) -> &[u8] {
    match cell {
        [
            b'N' | b'S' | b'E' | b'W' | b'O' | b'n' | b's' | b'e' | b'w' | b'o',
            rest @ ..,
        ] => rest,
        _ => cell,
    }
}

// The number of a field beside which its side stands, or behind which that or the sign of degrees does.
fn number_beside_side(cell: &[u8]) -> Option<&[u8]> {
    let start = without_side(cell);
    let number = without_blanks(without_side(without_blanks(start)));
    if start.len() < cell.len() && is_number(number) {
        return Some(number);
    }
    let rest = without_side_before(cell);
    let number = without_blanks(without_side(without_blanks(rest)));
    if rest.len() < cell.len() && is_number(number) {
        return Some(number);
    }
    None
}

// The most digits that degrees have before their decimals.
const DIGITS_OF_DEGREES: usize = 3;

// Whether a number has more digits than degrees before its decimals.
fn is_of_metres(number: &[u8]) -> bool {
    let is_of_whole = |byte: &u8| *byte != b'.' && *byte != b',';
    let whole = number.iter().take_while(|byte| is_of_whole(byte));
    DIGITS_OF_DEGREES < whole.filter(|byte| byte.is_ascii_digit()).count()
}

// How a number is to be written beside which its side stands.
fn words_of_side(number: &[u8]) -> &'static str {
    if is_of_metres(number) {
        ": write numbers alone, without the letters of their sides"
    } else {
        ": write degrees as numbers alone, with a minus before those in the south or the west"
    }
}

// The most digits of whole minutes and seconds.
const DIGITS_OF_MINUTES: usize = 2;

// Whether a byte stands behind degrees, minutes or seconds: of `°`, `º`, `'`, `"`, `′`, `″` and `:`.
fn is_sign_of_parts(byte: u8) -> bool {
    b"'\":\xC2\xB0\xBA\xE2\x80\xB2\xB3".contains(&byte)
}

// Whether a byte parts degrees from minutes.
fn parts_degrees(byte: u8) -> bool {
    byte == b' ' || is_sign_of_parts(byte)
}

// How many digits stand before the point of a number, if it is one with decimals or without.
fn digits_before_point(number: &[u8]) -> usize {
    number
        .iter()
        .position(|byte| *byte == b'.')
        .unwrap_or(number.len())
}

// Whether a field is degrees with minutes behind them, or seconds too, beside which their side may stand.
fn has_minutes(cell: &[u8]) -> bool {
    let own = without_blanks(without_side_before(without_blanks(without_side(cell))));
    let own = own.strip_prefix(b"-").unwrap_or(own);
    let mut numbers = own
        .split(|byte| parts_degrees(*byte))
        .filter(|number| !number.is_empty());
    let (Some(degrees), Some(minutes)) = (numbers.next(), numbers.next()) else {
        return false;
    };
    let is_of_degrees = is_number(degrees) && degrees.len() <= DIGITS_OF_DEGREES;
    let is_of_minutes = is_number(minutes) && digits_before_point(minutes) <= DIGITS_OF_MINUTES;
    let is_signed = own.iter().any(|byte| is_sign_of_parts(*byte)) || minutes.contains(&b'.');
    is_of_degrees && is_of_minutes && is_signed && numbers.all(is_number)
}

// Whether a byte may stand in a number, in one form or another.
fn is_of_number(byte: u8) -> bool {
    byte.is_ascii_digit() || b"+-.,eE".contains(&byte)
}

/// Appends what is to be done about a field that is no number: how it is to be written, or by which option it is missing, where it
/// may be a word for that.
pub(crate) fn push_number_remedy(text: &mut Vec<u8>, cell: &[u8]) -> Result<(), AllocError> {
    if let Some(number) = number_beside_side(cell) {
        return push(text, words_of_side(number));
    }
    if has_minutes(cell) {
        return push(
            text,
            ": write degrees with decimals, as 14.5 for 14 degrees and 30 minutes",
        );
    }
    if let Some(words) = words_of_number(cell) {
        return push(text, words);
    }
    if !is_word(cell) {
        return Ok(());
    }
    push(
        text,
        ": if it stands for what is missing, name it, by --na=",
    )?;
    if cell.iter().all(|byte| is_plain(*byte)) {
        return text.extend_from_slice(cell);
    }
    push(text, "'")?;
    text.extend_from_slice(cell)?;
    push(text, "'")
}

// Whether a text is a time of this form.
fn has_form(form: &[u8], cell: &[u8]) -> bool {
    match Forms::new(form) {
        Ok(forms) => forms.time(cell).is_ok(),
        Err(_) => false,
    }
}

// Appends the forms of a day and a clock with this end that a text has, of which so many stand before, the first behind these words.
// Answers how many there are then.
fn push_forms(
    alloc: Global,
    text: &mut Vec<u8>,
    cell: &[u8],
    (day, end): (&str, &[u8]),
    before: usize,
    words: &str,
) -> Result<usize, OutOfMemory> {
    let mut count = before;
    for clock in CLOCKS {
        let mut form = Vec::from_slice(alloc, day.as_bytes())?;
        push(&mut form, clock)?;
        form.extend_from_slice(end)?;
        if has_form(&form, cell) {
            push(text, if count == 0 { words } else { " or '" })?;
            text.extend_from_slice(&form)?;
            push(text, "'")?;
            count = count.saturating_add(1);
        }
    }
    Ok(count)
}

// Appends the forms of days and clocks with this end that a text has, the first behind these words. Answers how many there are.
fn push_all_forms(
    alloc: Global,
    text: &mut Vec<u8>,
    cell: &[u8],
    end: &[u8],
    words: &str,
) -> Result<usize, OutOfMemory> {
    let mut count = 0;
    for day in DAYS {
        count = push_forms(alloc, text, cell, (day, end), count, words)?;
    }
    Ok(count)
}

// Names of UTC behind a time.
const NAMES_OF_UTC: [&[u8]; 3] = [b" UTC", b" GMT", b" Z"];

// Whether a word may be a zone of time: great letters, of which none is a half of the day, or what begins with `UTC` or `GMT`.
fn may_be_zone(word: &[u8]) -> bool {
    let is_half = word == b"AM".as_slice() || word == b"PM".as_slice();
    let is_name = 1 <= word.len() && word.len() <= 5 && word.iter().all(u8::is_ascii_uppercase);
    is_name && !is_half || word.starts_with(b"UTC") || word.starts_with(b"GMT")
}

// What may be the zone of time at the end of a text, with the blank before it; empty where none is.
fn zone_behind(cell: &[u8]) -> &[u8] {
    let word = cell.rsplit(|byte| *byte == b' ').next().unwrap_or(b"");
    let place = cell.len().saturating_sub(word.len().saturating_add(1));
    match cell.split_at_checked(place) {
        Some((_, zone)) if may_be_zone(word) && word.len() < cell.len() => zone,
        _ => b"",
    }
}

// Appends the forms of a text with a zone of time at its end, the first behind these words, and that this is named. Answers whether
// there are such forms.
fn push_zoned_forms(
    alloc: Global,
    text: &mut Vec<u8>,
    cell: &[u8],
    words: &str,
) -> Result<bool, OutOfMemory> {
    let zone = zone_behind(cell);
    if zone.is_empty() {
        return Ok(false);
    }
    if push_all_forms(alloc, text, cell, zone, words)? == 0 {
        return Ok(false);
    }
    if !NAMES_OF_UTC.contains(&zone) {
        push(text, ", and its zone, as by --tz Europe/Ljubljana")?;
    }
    Ok(true)
}

/// The clock before a half of the day that is written as no form knows it, and whether this half is the one behind noon.
pub(crate) fn odd_half(cell: &[u8]) -> Option<(&[u8], bool)> {
    match cell {
        [.., b'A' | b'a' | b'P' | b'p', b'M' | b'm'] => None,
        _ => clock_of_half(cell),
    }
}

// The word that a form knows for a half of the day.
fn half_word(is_afternoon: bool) -> &'static str {
    if is_afternoon { "PM" } else { "AM" }
}

// A clock with the word for its half of the day behind it.
fn with_half(alloc: Global, clock: &[u8], is_afternoon: bool) -> Result<Vec<u8>, OutOfMemory> {
    let mut text = Vec::from_slice(alloc, clock)?;
    push(&mut text, " ")?;
    push(&mut text, half_word(is_afternoon))?;
    Ok(text)
}

/// Appends how a half of the day is to be written.
pub(crate) fn push_half(text: &mut Vec<u8>, is_afternoon: bool) -> Result<(), AllocError> {
    push(text, ": write its half of the day as ")?;
    push(text, half_word(is_afternoon))?;
    push(text, " at its end")
}

// Whether a text has digits, and does not begin with a day of ISO.
fn has_other_digits(cell: &[u8]) -> bool {
    !has_iso_day(cell) && cell.iter().any(|byte| byte.is_ascii_digit())
}

// A text with points for its commas.
fn with_points(alloc: Global, cell: &[u8]) -> Result<Vec<u8>, OutOfMemory> {
    let mut text = Vec::from_slice(alloc, cell)?;
    for byte in text.iter_mut() {
        if *byte == b',' {
            *byte = b'.';
        }
    }
    Ok(text)
}

// Whether a text would be a time or a number with a point for its comma.
fn has_decimal_comma(alloc: Global, cell: &[u8]) -> Result<bool, OutOfMemory> {
    if !cell.contains(&b',') {
        return Ok(false);
    }
    let text = with_points(alloc, cell)?;
    Ok(has_iso_form(&text) || is_number(&text))
}

// Forms of days and clocks without signs between.
const DIGITS: [&str; 3] = ["%Y%m%d", "%Y%m%d%H%M", "%Y%m%d%H%M%S"];

/// The form of a number that may be a day, or a day and a clock, without signs between: of a year from 1900 to 2099.
pub(crate) fn form_of_digits(cell: &[u8]) -> Option<&'static str> {
    if !cell.starts_with(b"19") && !cell.starts_with(b"20") {
        return None;
    }
    DIGITS
        .iter()
        .find(|form| has_form(form.as_bytes(), cell))
        .copied()
}

// Whether a field is a time of ISO but for a blank before its offset.
fn has_blank_before_offset(alloc: Global, cell: &[u8]) -> Result<bool, OutOfMemory> {
    let offset = cell.rsplit(|byte| *byte == b' ').next().unwrap_or(b"");
    let place = cell.len().saturating_sub(offset.len().saturating_add(1));
    let Some((start, _)) = cell.split_at_checked(place) else {
        return Ok(false);
    };
    if !offset.starts_with(b"+") && !offset.starts_with(b"-") {
        return Ok(false);
    }
    let mut joined = Vec::from_slice(alloc, start)?;
    joined.extend_from_slice(offset)?;
    Ok(has_iso_form(&joined))
}

/// Appends what is to be done about a field that is no time of ISO: by which option it is read, where it may be one of another
/// form.
pub(crate) fn push_form(alloc: Global, text: &mut Vec<u8>, cell: &[u8]) -> Result<(), OutOfMemory> {
    if has_decimal_comma(alloc, cell)? {
        push(text, ": write its decimals behind a point")?;
        return Ok(());
    }
    if has_blank_before_offset(alloc, cell)? {
        push(
            text,
            ": write its offset right behind the clock, without a blank",
        )?;
        return Ok(());
    }
    let words = ": name its form, as by --time-format '";
    if push_all_forms(alloc, text, cell, b"", words)? > 0
        || push_zoned_forms(alloc, text, cell, words)?
    {
        return Ok(());
    }
    if let Some((clock, is_afternoon)) = odd_half(cell) {
        push_half(text, is_afternoon)?;
        let own = with_half(alloc, clock, is_afternoon)?;
        push_all_forms(
            alloc,
            text,
            &own,
            b"",
            ", and name its form, as by --time-format '",
        )?;
    } else if has_other_digits(cell) {
        push(text, ": if it is one, name its form, by --time-format")?;
    }
    Ok(())
}

// Where a sign stands in a form.
fn place_of(form: &str, sign: &str) -> Option<usize> {
    for place in 0..form.len() {
        match form.as_bytes().split_at_checked(place) {
            Some((_, rest)) if rest.starts_with(sign.as_bytes()) => return Some(place),
            _ => {}
        }
    }
    None
}

// Whether in a form the day stands before the month, as numbers; none where it does not have both, or begins with the year.
fn is_day_first(form: &str) -> Option<bool> {
    if form.starts_with("%Y") {
        return None;
    }
    match (place_of(form, "%d"), place_of(form, "%m")) {
        (Some(day), Some(month)) => Some(day < month),
        _ => None,
    }
}

// Whether day and month stand the other way round in two forms.
fn are_turned(form: &str, other: &str) -> bool {
    match (is_day_first(form), is_day_first(other)) {
        (Some(one), Some(two)) => one != two,
        _ => false,
    }
}

// Whether a field has a form in which day and month stand otherwise than in that which was named.
fn has_turned(alloc: Global, cell: &[u8], forms: &str) -> Result<bool, OutOfMemory> {
    let mut unsaid = Vec::new(alloc);
    for day in DAYS {
        let is_one = are_turned(day, forms);
        if is_one && push_forms(alloc, &mut unsaid, cell, (day, b""), 0, "")? > 0 {
            return Ok(true);
        }
    }
    Ok(false)
}

// Appends the forms of a field in which day and month stand as in that which was named, the first behind these words. Answers how
// many there are.
fn push_straight_forms(
    alloc: Global,
    text: &mut Vec<u8>,
    cell: &[u8],
    forms: &str,
    words: &str,
) -> Result<usize, OutOfMemory> {
    let mut count = 0;
    for day in DAYS {
        if !are_turned(day, forms) {
            count = push_forms(alloc, text, cell, (day, b""), count, words)?;
        }
    }
    Ok(count)
}

/// Appends which other form than those that were named a field has, or that its day and its month may stand the other way round, as
/// then they do in all fields.
pub(crate) fn push_other_form(
    alloc: Global,
    text: &mut Vec<u8>,
    cell: &[u8],
    forms: &str,
) -> Result<(), OutOfMemory> {
    let is_turned = has_turned(alloc, cell, forms)?;
    let words = ": name its form too, behind a |, as '";
    let count = push_straight_forms(alloc, text, cell, forms, words)?;
    if is_turned {
        push(text, if count == 0 { ": " } else { "; or, " })?;
        push(
            text,
            "if day and month stand the other way round in all, name that form alone",
        )?;
    } else if count == 0 {
        push_zoned_forms(alloc, text, cell, words)?;
    }
    Ok(())
}
