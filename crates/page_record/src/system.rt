// The reference system of coordinates.

ghost use Rattle.std.specs.Prelude.{◌≡◌, option_map};
ghost use Rattle.page_record.specs.Reading.{option_seen, read};
ghost use Rattle.page_record.specs.System.{system_of, system_with};

use crate::record::{Given, Record};

// The value of an option.
fn value_of(given: &Given) -> Option<&[u8]>
    ensures { option_map (λ value. value.now) result ≡ (option_seen given.now).value }
{
    match &given.value {
        Some(value) => Some(value.as_slice()),
        None => None,
    }
}

// The reference system that was named so far, where one more option may name another.
fn system_with<'a>(system: Option<&'a [u8]>, given: &'a Given) -> Option<&'a [u8]>
    ensures { option_map (λ value. value.now) result ≡ system_with (option_map (λ value. value.now) system.entry) (option_seen given.now) }
{
    if given.name.as_slice() == b"crs".as_slice() {
        value_of(given)
    } else {
        system
    }
}

/// The reference system of coordinates, as the option `crs` names it; none where it does not. The zone of a record says more.
pub fn system_of(own: &Record) -> Option<&[u8]>
    ensures { option_map (λ value. value.now) result ≡ system_of (read own.now) }
{
    let mut system = None;
    for given in &own.options {
        system = system_with(system, given);
    }
    system
}
