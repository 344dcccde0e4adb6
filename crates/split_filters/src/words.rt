// Words of tables: those of a list, sensors, and classes of Argos.

ghost use Rattle.std.specs.Prelude.{◌≡◌};
ghost use Rattle.split_filters.specs.Words.{class_name, class_of, is_class, is_known_class, is_like, is_one_of, is_sensor, sensor_name, sensor_of, without_lc};

use split_titles::{comes_to, trimmed};

/// The sensor of fixes of Argos.
pub const ARGOS: &[u8] = b"argos-doppler-shift";

// Whether a word comes to another, as titles do.
#[tactic(auto, unfolding(crate::specs::Words::is_like))]
fn is_like(word: &[u8], other: &[u8]) -> bool
    ensures { result ≡ is_like word.now other.now }
{
    comes_to(word, other)
}

/// Whether a word comes to one of these: great letters are as small ones, and blanks beside it are nothing.
pub fn is_one_of(words: &[&[u8]], word: &[u8]) -> bool
    ensures { result ≡ is_one_of words.now word.now }
{
    for own in words {
        if is_like(own, word) {
            return true;
        }
    }
    false
}

// Whether a word is the number of a sensor, or comes to its name.
#[tactic(auto, unfolding(crate::specs::Words::is_sensor))]
fn is_sensor(word: &[u8], number: &[u8], name: &[u8]) -> bool
    ensures { result ≡ is_sensor word.now number.now name.now }
{
    word == number || is_like(word, name)
}

// The name of the sensor that a word without blanks beside it is.
fn sensor_of(word: &[u8]) -> &[u8]
    ensures { result.now ≡ sensor_of word.entry.now }
{
    if is_sensor(word, b"397", b"bird-ring") {
        b"bird-ring"
    } else if is_sensor(word, b"653", b"gps") {
        b"gps"
    } else if is_sensor(word, b"673", b"radio-transmitter") {
        b"radio-transmitter"
    } else if is_sensor(word, b"82798", ARGOS) {
        ARGOS
    } else if is_sensor(word, b"2365682", b"natural-mark") {
        b"natural-mark"
    } else if is_sensor(word, b"3886361", b"solar-geolocator") {
        b"solar-geolocator"
    } else {
        word
    }
}

/// The name of a sensor, for which Movebank has a number too, and which may be written in great letters. Any other word is a name
/// itself, without blanks beside it.
pub fn sensor_name(word: &[u8]) -> &[u8]
    ensures { result.now ≡ sensor_name word.entry.now }
{
    sensor_of(trimmed(word))
}

// A word without `LC` before it.
fn without_lc(word: &[u8]) -> &[u8]
    ensures { result.now ≡ without_lc word.entry.now }
{
    match word {
        [b'L' | b'l', b'C' | b'c', rest @ ..] => rest,
        _ => word,
    }
}

// Whether a word comes to a class, or to its number with a point.
#[tactic(auto, unfolding(crate::specs::Words::is_class))]
fn is_class(word: &[u8], class: &[u8], number: &[u8]) -> bool
    ensures { result ≡ is_class word.now class.now number.now }
{
    is_like(word, class) || is_like(word, number)
}

// The class of Argos that a word is which has no `LC` before it, and else the whole word.
fn class_of<'a>(bare: &[u8], word: &'a [u8]) -> &'a [u8]
    ensures { result.now ≡ class_of bare.now word.entry.now }
{
    if is_class(bare, b"3", b"3.0") {
        b"3"
    } else if is_class(bare, b"2", b"2.0") {
        b"2"
    } else if is_class(bare, b"1", b"1.0") {
        b"1"
    } else if is_class(bare, b"0", b"0.0") {
        b"0"
    } else if is_like(bare, b"A") {
        b"A"
    } else if is_like(bare, b"B") {
        b"B"
    } else if is_like(bare, b"Z") {
        b"Z"
    } else if is_like(bare, b"G") {
        b"G"
    } else {
        word
    }
}

/// The class of Argos that a word is: `LC3`, `LC 3` and `3.0` are `3`, and `b` is `B`. Any other word is a class itself, without
/// blanks beside it.
pub fn class_name(word: &[u8]) -> &[u8]
    ensures { result.now ≡ class_name word.entry.now }
{
    let own = trimmed(word);
    class_of(without_lc(own), own)
}

/// Whether a word is a class of Argos, in whatever way it is written.
pub fn is_known_class(word: &[u8]) -> bool
    ensures { result ≡ is_known_class word.now }
{
    matches!(
        class_name(word),
        b"3" | b"2" | b"1" | b"0" | b"A" | b"B" | b"Z" | b"G"
    )
}
