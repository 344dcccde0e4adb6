// The clock of a time zone, of the system's time zone database.

use range_plane::OutOfMemory;
use split_clock::{Clock, ClockFault};
use split_refusal::{Kind, Refusal};
use split_words::refused_zone_name;
use std::alloc::{AllocError, Global};
use std::fs;
use std::rt::Files;

// The folder of the time zone database.
const DATABASE: &str = "/usr/share/zoneinfo";

// A zone that every database has.
const WELL_KNOWN: &str = "Europe/London";

// The zone of which no database has to be asked.
const UTC: &str = "UTC";

// The path to a file of the database.
fn path_of(alloc: Global, name: &str) -> Result<String, AllocError> {
    format!(in alloc; "{DATABASE}/{name}")
}

// The bytes of the file of a zone; none where there is no such file.
fn zone_bytes<R: Files + AllocGlobal>(rt: &R, name: &str) -> Result<Option<Vec<u8>>, OutOfMemory> {
    let path = path_of(rt.alloc(), name)?;
    Ok(fs::read(rt, &path).ok())
}

// The refusal of a zone that is none, or of a system without a database.
fn no_zone<R: Files + AllocGlobal>(rt: &R, name: &str) -> Result<Refusal, OutOfMemory> {
    let alloc = rt.alloc();
    if zone_bytes(rt, WELL_KNOWN)?.is_some() {
        return Ok(refused_zone_name(alloc, name));
    }
    let words = format!(in alloc;
        "tz: {DATABASE} has no time zones: install the time zone database, as by the package tzdata"
    )?;
    Ok(Refusal::new(alloc, Kind::Option, None, words.as_bytes()))
}

// The clock of a zone, or the refusal that it is none.
fn read_clock<R: Files + AllocGlobal>(
    rt: &R,
    name: &str,
) -> Result<Result<Clock, Refusal>, OutOfMemory> {
    if let Some(bytes) = zone_bytes(rt, name)? {
        match Clock::read(rt.alloc(), &bytes) {
            Ok(clock) => return Ok(Ok(clock)),
            Err(ClockFault::OutOfMemory) => return Ok(Err(Refusal::out_of_memory(rt.alloc()))),
            Err(_) => {}
        }
    }
    Ok(Err(no_zone(rt, name)?))
}

/// The clock of the zone with this name, which is one that a zone may have.
///
/// # Errors
///
/// The database has no such zone, there is no database, or memory ran out.
pub(crate) fn clock_of<R: Files + AllocGlobal>(rt: &R, name: &str) -> Result<Clock, Refusal> {
    if name == UTC {
        return Ok(Clock::utc());
    }
    match read_clock(rt, name) {
        Ok(found) => found,
        Err(_) => Err(Refusal::out_of_memory(rt.alloc())),
    }
}
