// What stands between the fields of a table.

ghost use Rattle.std.specs.Prelude.{◌≡◌};
ghost use Rattle.std.specs.List.{before_first};
ghost use Rattle.split_table.specs.Separator.{PartsFields, ends_line, from_first_line, separator_in, separator_of};

// Whether a byte ends a line.
fn ends_line(byte: u8) -> bool
    ensures { result ≡ ends_line byte }
{
    byte == b'\n' || byte == b'\r'
}

// The text from its first line on that is not blank.
fn from_first_line(text: &[u8]) -> &[u8]
    ensures { result.now ≡ from_first_line text.entry.now }
{
    let start = text
        .iter()
        .position(|byte| !ends_line(*byte))
        .unwrap_or(text.len());
    &text[start..]
}

// What stands before the first end of a line.
fn before_end(text: &[u8]) -> &[u8]
    ensures { result.now ≡ before_first ends_line text.entry.now }
{
    let end = text
        .iter()
        .position(|byte| ends_line(*byte))
        .unwrap_or(text.len());
    &text[..end]
}

// What stands between the fields of a table with this line of titles.
fn separator_in(titles: &[u8]) -> u8
    ensures value { result ≡ separator_in titles.now }
    ensures parts { PartsFields result }
{
    match titles.iter().find(|byte| **byte == b',' || **byte == b';') {
        Some(b';') => b';',
        Some(_) => b',',
        None if titles.contains(&b'\t') => b'\t',
        None => b',',
    }
}

/// What stands between the fields of a table whose text has no byte order mark: a semicolon, a tab or a comma.
#[tactic(auto, unfolding(crate::specs::Separator::separator_of))]
pub fn separator_of(text: &[u8]) -> u8
    ensures value { result ≡ separator_of text.now }
    ensures parts { PartsFields result }
{
    separator_in(before_end(from_first_line(text)))
}
