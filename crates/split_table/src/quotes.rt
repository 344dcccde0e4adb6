// Whether the quotes of a table stand as they have to.

ghost use Rattle.std.specs.Prelude.{◌≡◌, ◌+◌, ◌<◌, true, not, None, length, IsTrue, MatchOption};
ghost use Rattle.csv.specs.Machine.{in_field, is_end};
ghost use Rattle.split_table.specs.Separator.{PartsFields};
ghost use Rattle.split_table.specs.Beside.{MayBegin, MayEnd};
ghost use Rattle.split_table.specs.Quotes.{Moves, config_by, ends_record, is_start, is_stray, quote_fault_of, settled, state_of};

use crate::table::TableFault;
use memchr::memchr_iter;

// Where in a record the next byte stands.
#[derive(Clone, Copy)]
enum Place {
    RecordStart,
    FieldStart,
    // In a field without quotes.
    Plain,
    // Between the quotes of a field.
    Quoted,
    // Behind a quote that may be the last of a field.
    QuoteEnd,
}

// Where the byte behind this one stands, which is in no field or in one without quotes.
fn behind_plain(byte: u8, separator: u8) -> Place
    ensures state { state_of result ≡ settled (in_field (config_by separator) byte).0 }
    ensures ends { is_start result ≡ is_end (in_field (config_by separator) byte).1 }
{
    if byte == separator {
        Place::FieldStart
    } else if byte == b'\n' || byte == b'\r' {
        Place::RecordStart
    } else {
        Place::Plain
    }
}

// Where the byte behind this one stands, which is behind a quote; `None` where this one may not stand there.
fn behind_quote(byte: u8, separator: u8) -> Option<Place>
    requires { PartsFields separator }
    ensures { MatchOption result (is_stray separator (state_of Place.QuoteEnd) byte ≡ true)
        (Moves separator Place.QuoteEnd byte) }
{
    if byte == b'"' {
        Some(Place::Quoted)
    } else if byte == separator || byte == b'\n' || byte == b'\r' {
        Some(behind_plain(byte, separator))
    } else {
        None
    }
}

// Where the byte behind this one stands; `None` where this one may not stand here.
fn behind(place: Place, byte: u8, separator: u8) -> Option<Place>
    requires { PartsFields separator }
    ensures { MatchOption result (is_stray separator (state_of place) byte ≡ true)
        (Moves separator place byte) }
{
    let is_quote = byte == b'"';
    match place {
        Place::QuoteEnd => behind_quote(byte, separator),
        Place::Quoted if is_quote => Some(Place::QuoteEnd),
        Place::Quoted => Some(Place::Quoted),
        Place::Plain if is_quote => None,
        Place::Plain => Some(behind_plain(byte, separator)),
        Place::RecordStart | Place::FieldStart if is_quote => Some(Place::Quoted),
        Place::RecordStart | Place::FieldStart => Some(behind_plain(byte, separator)),
    }
}

// Whether the next byte is the first of a record.
fn is_start(place: Place) -> bool
    ensures { result ≡ is_start place }
{
    match place {
        Place::RecordStart => true,
        _ => false,
    }
}

// Whether a record ends where the machine goes from one place to another.
fn ends_record(place: Place, next: Place) -> bool
    ensures { result ≡ ends_record place next }
{
    is_start(next) && !is_start(place)
}

// Whether a byte may stand before the first quote of a field, and behind its last one.
fn may_adjoin(byte: u8, separator: u8) -> bool
    ensures { result ≡ not (is_stray separator (state_of Place.QuoteEnd) byte) }
{
    byte == b'"' || byte == separator || byte == b'\n' || byte == b'\r'
}

// Whether a quote may begin a field here, by what stands before it.
fn may_begin(text: &[u8], place: usize, separator: u8) -> bool
    requires { place < length text.now }
    ensures { IsTrue result → MayBegin separator text.now place }
{
    place == 0 || may_adjoin(text[place - 1], separator)
}

// Whether a quote may end a field here, by what stands behind it.
fn may_end(text: &[u8], place: usize, separator: u8) -> bool
    requires { place < length text.now }
    ensures { IsTrue result → MayEnd separator text.now (place + 1) }
{
    place + 1 == text.len() || may_adjoin(text[place + 1], separator)
}

// Whether the bytes beside the quotes of a text show that each stands as it has to. Where they do not, that says nothing.
// Of two quotes that stand for one, the first is taken to end the field, and the second to begin it again.
fn quotes_stand(text: &[u8], separator: u8) -> bool
    ensures { IsTrue result → quote_fault_of separator text.now ≡ None }
{
    let mut is_open = false;
    for place in memchr_iter(b'"', text) {
        let stands = if is_open {
            may_end(text, place, separator)
        } else {
            may_begin(text, place, separator)
        };
        if !stands {
            return false;
        }
        is_open = !is_open;
    }
    !is_open
}

// The first fault of the quotes of a text. Only where the bytes beside them leave a doubt is each byte gone through.
pub(crate) fn quote_fault(text: &[u8], separator: u8) -> Option<TableFault>
    requires { PartsFields separator }
    ensures { result ≡ quote_fault_of separator text.now }
{
    if quotes_stand(text, separator) {
        return None;
    }
    let mut place = Place::RecordStart;
    let mut record = 0u64;
    for byte in text {
        let Some(next) = behind(place, *byte, separator) else {
            return Some(TableFault::StrayQuote { record });
        };
        if ends_record(place, next) {
            record += 1;
        }
        place = next;
    }
    match place {
        Place::Quoted => Some(TableFault::OpenQuote { record }),
        _ => None,
    }
}
