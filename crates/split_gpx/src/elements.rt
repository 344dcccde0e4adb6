// The elements of GPX that are read.

use crate::signs::local_name;

/// An element, by where it stands.
#[derive(Clone, Copy, PartialEq, Eq)]
pub(crate) enum Element {
    Gpx,
    Track,
    TrackName,
    Segment,
    Point,
    Time,
    /// One that is not read, nor what is in it.
    Other,
}

/// An element that is open, and its name as it stands in the text.
#[derive(Clone, Copy)]
pub(crate) struct Open<'a> {
    pub(crate) name: &'a [u8],
    pub(crate) element: Element,
}

/// Whether a name is that of a point: of a track, of a route, or of its own.
pub(crate) fn is_of_point(name: &[u8]) -> bool {
    let name = local_name(name);
    [b"trkpt".as_slice(), b"rtept", b"wpt"]
        .iter()
        .any(|own| name == *own)
}

/// The element of a name that is directly in another. Namespaces do not count.
pub(crate) fn element_in(parent: Element, name: &[u8]) -> Element {
    match (parent, local_name(name)) {
        (Element::Gpx, b"trk") => Element::Track,
        (Element::Track, b"name") => Element::TrackName,
        (Element::Track, b"trkseg") => Element::Segment,
        (Element::Segment, b"trkpt") => Element::Point,
        (Element::Point, b"time") => Element::Time,
        _ => Element::Other,
    }
}
