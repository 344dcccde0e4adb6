// How titles are compared.

ghost use Rattle.std.specs.Prelude.{◌≡◌, ◌==◌, ◌↔◌, IsTrue, map, reverse};
ghost use Rattle.std.specs.List.{list_all, zip};
ghost use Rattle.split_titles.specs.Plain.{behind_blanks, is_blank, plain, plain_byte, trimmed};

// Whether a byte is a blank or a tab.
fn is_blank(byte: u8) -> bool
    ensures { result ≡ is_blank byte }
{
    byte == b' ' || byte == b'\t'
}

// A text without the blanks at its start.
#[tactic(auto, unfolding(crate::specs::Plain::behind_blanks))]
fn behind_blanks(text: &[u8]) -> &[u8]
    ensures { result.now ≡ behind_blanks text.now }
{
    let mut rest = text;
    while let Some((first, others)) = rest.split_first() {
        if !is_blank(*first) {
            return rest;
        }
        rest = others;
    }
    rest
}

// A text without the blanks at its end.
fn before_blanks(text: &[u8]) -> &[u8]
    ensures { result.now ≡ reverse (behind_blanks (reverse text.now)) }
{
    let mut rest = text;
    while let Some((last, others)) = rest.split_last() {
        if !is_blank(*last) {
            return rest;
        }
        rest = others;
    }
    rest
}

/// A title without blanks and tabs beside it.
pub fn trimmed(title: &[u8]) -> &[u8]
    ensures { result.now ≡ trimmed title.now }
{
    before_blanks(behind_blanks(title))
}

// A byte of a title as it is compared.
fn plain_byte(byte: u8) -> u8
    ensures { result ≡ plain_byte byte }
{
    match byte {
        b' ' | b'.' | b':' | b'_' => b'-',
        _ => byte.to_ascii_lowercase(),
    }
}

// Whether of each two bytes at one place of two texts, the one is compared as the other.
fn are_paired(text: &[u8], other: &[u8]) -> bool
    ensures { result ≡ list_all (λ pair. plain_byte pair.0 == plain_byte pair.1)
        (zip text.now other.now) }
{
    text.iter()
        .zip(other)
        .all(|(a, b)| plain_byte(*a) == plain_byte(*b))
}

// Whether two texts have the same bytes, as these are compared.
fn are_alike(text: &[u8], other: &[u8]) -> bool
    ensures { IsTrue result ↔ (map plain_byte text.now ≡ map plain_byte other.now) }
{
    text.len() == other.len() && are_paired(text, other)
}

/// Whether a title comes to another: in small letters, without blanks and tabs beside it, and with hyphens for blanks, points,
/// colons and underscores.
pub fn comes_to(title: &[u8], other: &[u8]) -> bool
    ensures { IsTrue result ↔ (plain title.now ≡ plain other.now) }
{
    are_alike(trimmed(title), trimmed(other))
}

// Whether a title is written as another, but for blanks beside them.
pub(crate) fn is_written_as(title: &[u8], other: &[u8]) -> bool
    ensures { IsTrue result ↔ (trimmed title.now ≡ trimmed other.now) }
{
    trimmed(title) == trimmed(other)
}
