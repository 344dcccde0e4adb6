// The sentences in which a table is refused for its titles.

ghost use Rattle.std.specs.Prelude.{◌≤◌, length};

use crate::fault::{PassedOver, TitleFault};
use crate::named::Role;
use crate::plain::{comes_to, trimmed};
use crate::sentences_of_said::{
    push_axis, push_local, push_other_clock, push_side, push_unit, push_utc,
};
use crate::usual::{
    ARGOS_CLASSES, COLUMN_LIMIT, DATE, DOPS, FIX_TYPES, TIME, UTM_EASTING, UTM_NORTHING,
};
use itoa::Buffer;
use range_plane::OutOfMemory;
use std::alloc::{AllocError, Allocator};

// How many titles of a table a sentence lists.
const LISTED_TITLES: usize = 40;
// How many signs a title may have that is listed whole, and how many stay of a longer one.
const WHOLE_SIGNS: usize = 60;

const KEPT_SIGNS: usize = 57;

// Appends words.
pub(crate) fn push<A: Allocator>(text: &mut Vec<u8, A>, words: &str) -> Result<(), AllocError> {
    text.extend_from_slice(words.as_bytes())
}

// Appends a number.
fn push_number<A: Allocator>(text: &mut Vec<u8, A>, number: usize) -> Result<(), AllocError> {
    let mut buffer = Buffer::new();
    push(text, buffer.format(number))
}

// The title of a column.
pub(crate) fn title_at<'a>(titles: &[&'a [u8]], at: usize) -> &'a [u8] {
    match titles.get(at) {
        Some(title) => trimmed(title),
        None => b"",
    }
}

// Appends a title between apostrophes.
fn push_quoted<A: Allocator>(text: &mut Vec<u8, A>, title: &[u8]) -> Result<(), AllocError> {
    push(text, "'")?;
    text.extend_from_slice(title)?;
    push(text, "'")
}

// Appends a column by its number and its title.
pub(crate) fn push_column<A: Allocator>(
    text: &mut Vec<u8, A>,
    titles: &[&[u8]],
    at: usize,
) -> Result<(), AllocError> {
    push(text, "column ")?;
    push_number(text, at.saturating_add(1))?;
    push(text, " ")?;
    push_quoted(text, title_at(titles, at))
}

// Appends two columns that both fit this.
fn push_both<A: Allocator>(
    text: &mut Vec<u8, A>,
    titles: &[&[u8]],
    first: usize,
    second: usize,
    what: &str,
) -> Result<(), AllocError> {
    push_column(text, titles, first)?;
    push(text, " and ")?;
    push_column(text, titles, second)?;
    push(text, " both fit ")?;
    push(text, what)
}

// Appends an option with its value, as it is written.
fn push_option<A: Allocator>(
    text: &mut Vec<u8, A>,
    option: &str,
    value: &[u8],
) -> Result<(), AllocError> {
    push(text, "--")?;
    push(text, option)?;
    push(text, " ")?;
    if value.contains(&b' ') {
        push_quoted(text, value)
    } else {
        text.extend_from_slice(value)
    }
}

/// Where in a text in UTF-8 the sign of this number begins, counted from 0; its length where it has no more signs.
pub fn start_of_sign(text: &[u8], sign: usize) -> usize
    ensures { result ≤ length text.now }
{
    let mut seen: usize = 0;
    for (at, byte) in text.iter().enumerate() {
        if (0x80..0xC0).contains(byte) {
            continue;
        }
        if seen == sign {
            return at;
        }
        seen += 1;
    }
    text.len()
}

/// Appends a title or a field between apostrophes, as a sentence quotes it: of one of more than 60 signs the first 57, with
/// three points behind them.
///
/// # Errors
///
/// Memory ran out.
pub fn push_shown<A: Allocator>(text: &mut Vec<u8, A>, title: &[u8]) -> Result<(), AllocError> {
    if start_of_sign(title, WHOLE_SIGNS) == title.len() {
        return push_quoted(text, title);
    }
    push(text, "'")?;
    text.extend_from_slice(&title[..start_of_sign(title, KEPT_SIGNS)])?;
    push(text, "...")
}

// Appends the first titles of a table.
fn push_listed<A: Allocator>(text: &mut Vec<u8, A>, titles: &[&[u8]]) -> Result<(), AllocError> {
    for (at, title) in titles.iter().enumerate() {
        if at == LISTED_TITLES {
            return Ok(());
        }
        if at > 0 {
            push(text, ", ")?;
        }
        push_shown(text, trimmed(title))?;
    }
    Ok(())
}

// Appends usual titles.
fn push_usuals<A: Allocator>(text: &mut Vec<u8, A>, usuals: &[&str]) -> Result<(), AllocError> {
    for (at, title) in usuals.iter().enumerate() {
        if at > 0 {
            push(text, ", ")?;
        }
        push(text, title)?;
    }
    Ok(())
}

// Appends titles that were named, between which `|` stands.
fn push_wanted<A: Allocator>(text: &mut Vec<u8, A>, wanted: &[u8]) -> Result<(), AllocError> {
    for (at, title) in wanted.split(|byte| *byte == b'|').enumerate() {
        if at > 0 {
            push(text, " or ")?;
        }
        text.extend_from_slice(title)?;
    }
    Ok(())
}

// Appends that there are too many columns.
fn push_too_many<A: Allocator>(text: &mut Vec<u8, A>, width: usize) -> Result<(), AllocError> {
    push(text, "has ")?;
    push_number(text, width)?;
    push(text, " columns, and a table may have ")?;
    push_number(text, COLUMN_LIMIT)?;
    push(text, ": is its separator another?")
}

// Appends what is wrong with two coordinates that were named.
fn push_pair<A: Allocator>(
    text: &mut Vec<u8, A>,
    first: Role,
    second: Role,
    wrong: &str,
) -> Result<(), AllocError> {
    push(text, first.option())?;
    push(text, " and ")?;
    push(text, second.option())?;
    push(text, wrong)
}

// Appends that no column has a title that was named.
fn push_no_column<A: Allocator>(
    text: &mut Vec<u8, A>,
    titles: &[&[u8]],
    role: Role,
    wanted: &[u8],
) -> Result<(), AllocError> {
    push(text, "--")?;
    push(text, role.option())?;
    push(text, ": there is no column '")?;
    push_wanted(text, wanted)?;
    push(text, "'; the table has ")?;
    push_listed(text, titles)
}

// Whether there is one title alone, with signs that other tables have between fields.
fn has_other_separator(titles: &[&[u8]]) -> bool {
    match titles {
        [title] => trimmed(title)
            .iter()
            .any(|byte| *byte == b'|' || *byte == b' ' || *byte == b':'),
        _ => false,
    }
}

// Whether a title has a tab inside it.
fn has_tabs(titles: &[&[u8]]) -> bool {
    titles.iter().any(|title| trimmed(title).contains(&b'\t'))
}

// Appends that no usual title is that of coordinates.
fn push_no_coordinates<A: Allocator>(
    text: &mut Vec<u8, A>,
    titles: &[&[u8]],
) -> Result<(), AllocError> {
    push(
        text,
        "there are no columns of usual titles for easting and northing, or longitude and latitude: name them, as by \
         --easting X and --northing Y, or --lon X and --lat Y; the table has ",
    )?;
    push_listed(text, titles)?;
    if has_other_separator(titles) {
        push(
            text,
            ", which is one title: fields stand between commas, semicolons or tabs",
        )?;
    } else if has_tabs(titles) {
        push(
            text,
            ": tabs stand between fields only where the line of titles has no comma and no semicolon",
        )?;
    }
    Ok(())
}

// Appends that an option asks for a column which no usual title is that of.
fn push_no_usual<A: Allocator>(
    text: &mut Vec<u8, A>,
    asking: &str,
    usuals: &[&str],
    role: Role,
) -> Result<(), AllocError> {
    push(text, asking)?;
    push(text, ": no column has a usual title for it (")?;
    push_usuals(text, usuals)?;
    push(text, "): name it, as by ")?;
    push_option(text, role.option(), b"COLUMN")
}

// Appends that two columns fit one usual title.
fn push_one_title<A: Allocator>(
    text: &mut Vec<u8, A>,
    titles: &[&[u8]],
    first: usize,
    second: usize,
    title: &str,
) -> Result<(), AllocError> {
    push_both(text, titles, first, second, title)?;
    push(text, ": rename one")
}

// Whether two columns are the day and the clock of a time.
fn are_parts_of_time(titles: &[&[u8]], first: usize, second: usize, role: Role) -> bool {
    role == Role::Time
        && comes_to(title_at(titles, first), DATE.as_bytes())
        && comes_to(title_at(titles, second), TIME.as_bytes())
}

// Appends that two columns fit one role.
fn push_one_role<A: Allocator>(
    text: &mut Vec<u8, A>,
    titles: &[&[u8]],
    first: usize,
    second: usize,
    role: Role,
) -> Result<(), AllocError> {
    push_both(text, titles, first, second, role.words())?;
    push(text, ": name one, as by ")?;
    push_option(text, role.option(), title_at(titles, first))?;
    if role == Role::Animal || are_parts_of_time(titles, first, second, role) {
        let words = if role == Role::Animal {
            ", or both, where one has the animals that the other has not, as by "
        } else {
            ", or both, as by "
        };
        push(text, words)?;
        push_option(text, role.option(), title_at(titles, first))?;
        push(text, ",")?;
        text.extend_from_slice(title_at(titles, second))?;
    }
    Ok(())
}

// Appends that the animal was named, and there is a column of it.
fn push_named_animal<A: Allocator>(
    text: &mut Vec<u8, A>,
    titles: &[&[u8]],
    at: usize,
) -> Result<(), AllocError> {
    push_column(text, titles, at)?;
    push(
        text,
        " is that of the animal, and --name is for tables without one: leave --name out, or rename the column",
    )
}

// Appends that a column would be passed over.
fn push_passed_over<A: Allocator>(
    text: &mut Vec<u8, A>,
    titles: &[&[u8]],
    at: usize,
    what: PassedOver,
) -> Result<(), AllocError> {
    push_column(text, titles, at)?;
    match what {
        PassedOver::Classes => {
            push(text, " may have Argos classes: name it, as by ")?;
            push_option(text, Role::Argos.option(), title_at(titles, at))?;
            push(text, ", or rename or remove it")
        }
        PassedOver::Mark => push(
            text,
            " may have marks, but is not read: rename or remove it",
        ),
        PassedOver::Zone => {
            push(text, " is read beside ")?;
            push(text, UTM_EASTING)?;
            push(text, " and ")?;
            push(text, UTM_NORTHING)?;
            push(text, " alone: rename or remove it")
        }
    }
}

// Appends the sentence of a fault.
fn push_fault<A: Allocator>(
    text: &mut Vec<u8, A>,
    fault: TitleFault,
    titles: &[&[u8]],
) -> Result<(), AllocError> {
    match fault {
        TitleFault::OutOfMemory => push(text, "out of memory"),
        TitleFault::TooManyColumns => push_too_many(text, titles.len()),
        TitleFault::HalfPair { first, second } => {
            push_pair(text, first, second, ": name both, or none")
        }
        TitleFault::OneColumn { first, second } => {
            push_pair(text, first, second, " are one column")
        }
        TitleFault::TwoPairs => push(
            text,
            "easting and northing, or lon and lat: name one pair of the two",
        ),
        TitleFault::NoColumn { role, wanted } => push_no_column(text, titles, role, wanted),
        TitleFault::NoCoordinates => push_no_coordinates(text, titles),
        TitleFault::NoArgosClass => {
            push_no_usual(text, "--argos-class", &ARGOS_CLASSES, Role::Argos)
        }
        TitleFault::NoDop => push_no_usual(text, "--max-dop", &DOPS, Role::Dop),
        TitleFault::NoFixType => push_no_usual(text, "--fix-type", &FIX_TYPES, Role::FixType),
        TitleFault::OneTitle {
            first,
            second,
            title,
        } => push_one_title(text, titles, first, second, title),
        TitleFault::OneRole {
            first,
            second,
            role,
        } => push_one_role(text, titles, first, second, role),
        TitleFault::PassedOver { at, what } => push_passed_over(text, titles, at, what),
        TitleFault::NamedAnimal { at } => push_named_animal(text, titles, at),
        TitleFault::SeparatorLine => push(
            text,
            "the first line says what stands between fields, and has no titles: leave it out, by --skip-lines 1",
        ),
        TitleFault::OtherUnit { at, is_metres } => push_unit(text, titles, at, is_metres),
        TitleFault::OtherSide { at, other, role } => push_side(text, titles, at, other, role),
        TitleFault::OtherAxis { at, role } => push_axis(text, titles, at, role),
        TitleFault::LocalTime { at } => push_local(text, titles, at),
        TitleFault::OtherClock { at, zone } => push_other_clock(text, titles, at, zone),
        TitleFault::UtcTime { at, zone } => push_utc(text, titles, at, zone),
    }
}

/// The sentence of a fault of a table of these titles, which quotes them as they are: control characters in it are not
/// escaped. That of too many columns goes on behind the name of the table.
///
/// # Errors
///
/// Memory ran out.
pub fn fault_text<A: Allocator>(
    alloc: A,
    fault: TitleFault,
    titles: &[&[u8]],
) -> Result<Vec<u8, A>, OutOfMemory> {
    let mut text = Vec::new(alloc);
    push_fault(&mut text, fault, titles)?;
    Ok(text)
}
