// The markup of XML: tags, comments, instructions and sections of characters.

use crate::attributes::{Attribute, split_attribute};
use crate::fault::GpxCause;
use crate::signs::{split_around, split_name, without_blanks};
use crate::stop::{Stop, refused};

/// The tag that begins an element, with the values of the attributes that are read, as they stand in the text.
#[derive(Clone, Copy)]
pub(crate) struct Tag<'a> {
    pub(crate) name: &'a [u8],
    pub(crate) longitude: Option<&'a [u8]>,
    pub(crate) latitude: Option<&'a [u8]>,
    /// Whether the element ends with its tag.
    pub(crate) is_empty: bool,
}

/// What begins with `<`.
#[derive(Clone, Copy)]
pub(crate) enum Markup<'a> {
    Start(Tag<'a>),
    /// The tag that ends an element of this name.
    End(&'a [u8]),
    /// A section of characters, as they stand in the text.
    Characters(&'a [u8]),
    /// A comment or an instruction.
    Aside,
}

impl<'a> Tag<'a> {
    // The tag with an attribute; `None` where it has one of the same name that is read.
    fn with(self, attribute: Attribute<'a>) -> Option<Tag<'a>> {
        let value = Some(attribute.value);
        match attribute.name {
            b"lon" if self.longitude.is_none() => Some(Tag {
                longitude: value,
                ..self
            }),
            b"lat" if self.latitude.is_none() => Some(Tag {
                latitude: value,
                ..self
            }),
            b"lon" | b"lat" => None,
            _ => Some(self),
        }
    }
}

// The end of a tag at the head of a text: whether its element is empty, and what follows.
fn split_tag_end(text: &[u8]) -> Option<(bool, &[u8])> {
    match text {
        [b'>', rest @ ..] => Some((false, rest)),
        [b'/', b'>', rest @ ..] => Some((true, rest)),
        _ => None,
    }
}

// The tag behind `<`, and what follows it. Blanks stand before each attribute.
fn split_start(text: &[u8]) -> Option<(Markup<'_>, &[u8])> {
    let (name, mut rest) = split_name(text)?;
    let mut tag = Tag {
        name,
        longitude: None,
        latitude: None,
        is_empty: false,
    };
    for _ in 0..text.len() {
        let next = without_blanks(rest);
        if let Some((is_empty, behind)) = split_tag_end(next) {
            return Some((Markup::Start(Tag { is_empty, ..tag }), behind));
        }
        if next.len() == rest.len() {
            return None;
        }
        let (attribute, behind) = split_attribute(next)?;
        tag = tag.with(attribute)?;
        rest = behind;
    }
    None
}

// The name of the tag behind `</`, and what follows it.
fn split_end(text: &[u8]) -> Option<(Markup<'_>, &[u8])> {
    let (name, rest) = split_name(text)?;
    match without_blanks(rest) {
        [b'>', rest @ ..] => Some((Markup::End(name), rest)),
        _ => None,
    }
}

// What follows a comment, behind `<!--`. No two hyphens stand in it.
fn behind_comment(text: &[u8]) -> Option<(Markup<'_>, &[u8])> {
    match split_around(text, b"--")? {
        (_, [b'>', rest @ ..]) => Some((Markup::Aside, rest)),
        _ => None,
    }
}

// What follows an instruction, behind `<?`. Blanks stand behind its name, if anything does, and `xml` is no name of one.
fn behind_instruction(text: &[u8]) -> Option<(Markup<'_>, &[u8])> {
    let (name, rest) = split_name(text)?;
    let (content, behind) = split_around(rest, b"?>")?;
    let has_blanks = without_blanks(content).len() < content.len();
    if (content.is_empty() || has_blanks) && !name.eq_ignore_ascii_case(b"xml") {
        Some((Markup::Aside, behind))
    } else {
        None
    }
}

// The characters of a section, behind `<![CDATA[`, and what follows it.
fn split_characters(text: &[u8]) -> Option<(Markup<'_>, &[u8])> {
    let (characters, rest) = split_around(text, b"]]>")?;
    Some((Markup::Characters(characters), rest))
}

// The markup behind `<`, and what follows it, if it is as XML has it.
fn split_known(text: &[u8]) -> Option<(Markup<'_>, &[u8])> {
    match text {
        [b'!', b'-', b'-', rest @ ..] => behind_comment(rest),
        [b'!', rest @ ..] => split_characters(rest.strip_prefix(b"[CDATA[")?),
        [b'?', rest @ ..] => behind_instruction(rest),
        [b'/', rest @ ..] => split_end(rest),
        _ => split_start(text),
    }
}

/// The markup at the head of a text that begins with `<`, and what follows it.
pub(crate) fn split_markup(text: &[u8]) -> Result<(Markup<'_>, &[u8]), Stop> {
    let behind = text.get(1..).unwrap_or_default();
    match split_known(behind) {
        Some(found) => Ok(found),
        None if behind.starts_with(b"!DOCTYPE") => Err(refused(text, GpxCause::DocumentType)),
        None => Err(refused(text, GpxCause::Markup)),
    }
}
