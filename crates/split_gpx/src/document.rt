// A document that is read: the elements that are open, the track that is, and the table.

use crate::elements::{Element, Open, element_in, is_of_point};
use crate::fault::GpxCause;
use crate::markup::{Markup, Tag};
use crate::references::left_from_bad_reference;
use crate::signs::{local_name, without_blanks};
use crate::stop::{Stop, refused};
use crate::tracks::{GpxTable, Point, TITLES, TITLES_OF_ONE, Track};
use memchr::memmem;
use std::alloc::Global;

// How many elements may be open at once. GPX has some five, and what programs add to it some more.
const MOST_OPEN: usize = 100;

/// A document that is read.
#[derive(Drop)]
pub(crate) struct Document<'a> {
    alloc: Global,
    open: Vec<Open<'a>>,
    /// Whether the outermost element began.
    has_begun: bool,
    /// What follows the tag of the name or the time whose text is read.
    content: Option<&'a [u8]>,
    track: Track<'a>,
    /// How many tracks began.
    tracks: usize,
    /// The records of tracks with a name, and of those without.
    named: Vec<u8>,
    nameless: Vec<u8>,
    /// How many tracks without a name have points, and which is the first of them.
    nameless_tracks: usize,
    first_nameless: usize,
    /// How many points began that are not read.
    other_points: usize,
}

// The table of titles and records, beside which so many points are not read.
fn table_with(
    alloc: Global,
    titles: &[u8],
    records: &[u8],
    other_points: usize,
) -> Result<GpxTable, Stop> {
    let mut text = titles.to_vec(alloc)?;
    text.extend_from_slice(records)?;
    Ok(GpxTable { text, other_points })
}

impl<'a> Document<'a> {
    /// A document of which nothing was read.
    pub(crate) fn new(alloc: Global) -> Document<'a> {
        Document {
            alloc,
            open: Vec::new(alloc),
            has_begun: false,
            content: None,
            track: Track::new(alloc),
            tracks: 0,
            named: Vec::new(alloc),
            nameless: Vec::new(alloc),
            nameless_tracks: 0,
            first_nameless: 0,
            other_points: 0,
        }
    }

    // Whether what is read next is in an element.
    fn is_inside(&self) -> bool {
        !self.open.is_empty()
    }

    // Why what begins a rest of the text may not stand outside of the outermost element.
    fn outside(&self, rest: &[u8]) -> Stop {
        if self.has_begun {
            refused(rest, GpxCause::Outside)
        } else {
            Stop::NotGpx
        }
    }

    // The element that is open, and in no other.
    fn innermost(&self) -> Element {
        match self.open.last() {
            Some(open) => open.element,
            None => Element::Other,
        }
    }

    // The element that a tag begins.
    fn element_of(&self, tag: &Tag<'a>, rest: &[u8]) -> Result<Element, Stop> {
        match self.open.last() {
            Some(_) if self.open.len() >= MOST_OPEN => Err(refused(rest, GpxCause::TooDeep)),
            Some(open) => Ok(element_in(open.element, tag.name)),
            None if !self.has_begun && local_name(tag.name) == b"gpx".as_slice() => {
                Ok(Element::Gpx)
            }
            None => Err(self.outside(rest)),
        }
    }

    // Whether the text of an element is read: that of the first name of a track and of the first time of a point.
    fn wants_text(&self, element: Element) -> bool {
        match element {
            Element::TrackName => self.track.name.is_none(),
            Element::Time => match self.track.points.last() {
                Some(point) => point.time.is_none(),
                None => false,
            },
            _ => false,
        }
    }

    // Keeps the text that is read, which ends where a rest of this length begins.
    fn end_text(&mut self, left: usize) {
        let Some(content) = self.content.take() else {
            return;
        };
        let length = content.len().saturating_sub(left);
        let text = content.get(..length);
        if self.innermost() == Element::TrackName {
            self.track.name = text;
        } else if let Some(point) = self.track.points.last_mut() {
            point.time = text;
        }
    }

    // Begins the element of a tag, which begins a rest of the text, and behind which another follows.
    fn begin(&mut self, tag: Tag<'a>, rest: &'a [u8], behind: &'a [u8]) -> Result<(), Stop> {
        let element = self.element_of(&tag, rest)?;
        self.open.push(Open {
            name: tag.name,
            element,
        })?;
        self.has_begun = true;
        if element == Element::Point {
            self.track.points.push(Point {
                time: None,
                longitude: tag.longitude,
                latitude: tag.latitude,
            })?;
        } else if is_of_point(tag.name) {
            self.other_points = self.other_points.saturating_add(1);
        }
        if self.wants_text(element) {
            self.content = Some(behind);
        }
        if tag.is_empty {
            self.end(tag.name, behind)?;
        }
        Ok(())
    }

    // Writes the records of a track that ends.
    fn write_track(&mut self) -> Result<(), Stop> {
        self.tracks = self.tracks.saturating_add(1);
        match self.track.animal_cell(self.alloc)? {
            Some(animal) => self
                .track
                .write(self.alloc, &mut self.named, Some(&animal))?,
            None => {
                if !self.track.points.is_empty() {
                    self.count_nameless();
                }
                self.track.write(self.alloc, &mut self.nameless, None)?;
            }
        }
        Ok(())
    }

    // Counts a track with points and without a name.
    fn count_nameless(&mut self) {
        if self.nameless_tracks == 0 {
            self.first_nameless = self.tracks;
        }
        self.nameless_tracks = self.nameless_tracks.saturating_add(1);
    }

    // Ends the innermost element, by a tag of this name that begins a rest of the text.
    fn end(&mut self, name: &[u8], rest: &[u8]) -> Result<(), Stop> {
        self.end_text(rest.len());
        match self.open.pop() {
            Some(open) if open.name == name => {
                if open.element == Element::Track {
                    self.write_track()?;
                }
                Ok(())
            }
            _ => Err(refused(rest, GpxCause::OtherEnd)),
        }
    }

    /// Checks the text before a rest, with which that begins: outside of elements it may be blank alone.
    pub(crate) fn check_text(&self, text: &[u8], rest: &[u8]) -> Result<(), Stop> {
        if !self.is_inside() && !without_blanks(text).is_empty() {
            return Err(self.outside(rest));
        }
        if memmem::find(text, b"]]>").is_some() {
            return Err(refused(rest, GpxCause::Markup));
        }
        match left_from_bad_reference(text) {
            Some(left) => Err(Stop::Refused {
                left: rest.len().saturating_add(left),
                cause: GpxCause::Reference,
            }),
            None => Ok(()),
        }
    }

    /// Takes the markup that begins a rest of the text, and behind which another follows.
    pub(crate) fn take(
        &mut self,
        markup: Markup<'a>,
        rest: &'a [u8],
        behind: &'a [u8],
    ) -> Result<(), Stop> {
        match markup {
            Markup::Start(tag) => {
                self.end_text(rest.len());
                self.begin(tag, rest, behind)
            }
            Markup::End(name) => self.end(name, rest),
            Markup::Characters(_) if !self.is_inside() => Err(self.outside(rest)),
            Markup::Characters(_) | Markup::Aside => Ok(()),
        }
    }

    /// The table of a document whose text has ended. Tracks without a name are of one animal, which no column has, where there is
    /// one such track alone or all are known to be of one.
    pub(crate) fn finish(self, are_of_one: bool) -> Result<GpxTable, Stop> {
        if self.is_inside() {
            return Err(refused(&[], GpxCause::Unclosed));
        }
        if !self.has_begun {
            return Err(Stop::NotGpx);
        }
        if self.nameless.is_empty() && self.named.is_empty() {
            return Err(Stop::NoPoints);
        }
        if self.nameless.is_empty() {
            return table_with(self.alloc, TITLES, &self.named, self.other_points);
        }
        if !self.named.is_empty() || self.nameless_tracks > 1 && !are_of_one {
            return Err(Stop::NoName {
                track: self.first_nameless,
            });
        }
        table_with(self.alloc, TITLES_OF_ONE, &self.nameless, self.other_points)
    }
}
