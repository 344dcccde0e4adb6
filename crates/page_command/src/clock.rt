// The clock of a time zone, of the system's time zone database.

use crate::stop::Stop;
use split_clock::{Clock, ClockFault};
use std::alloc::Global;
use std::fs;
use std::rt::Files;

// The folder of the time zone database.
const DATABASE: &str = "/usr/share/zoneinfo";

// The zone of which no database has to be asked.
const UTC: &str = "UTC";

// That the database has no such zone.
fn no_zone(alloc: Global, name: &str) -> Stop {
    let words = format!(in alloc;
        "--clock: {DATABASE} has no time zone {name}: name one that it has, or install the package tzdata"
    );
    match words {
        Ok(text) => Stop::Words(text),
        Err(_no_memory) => Stop::OutOfMemory,
    }
}

/// The clock of the zone with this name, which is one that a zone may have.
///
/// # Errors
///
/// The database has no such zone, or memory ran out.
pub(crate) fn clock_of<R: Files + AllocGlobal>(rt: &R, name: &str) -> Result<Clock, Stop> {
    if name == UTC {
        return Ok(Clock::utc());
    }
    let alloc = rt.alloc();
    let path = format!(in alloc; "{DATABASE}/{name}")?;
    let Ok(bytes) = fs::read(rt, &path) else {
        return Err(no_zone(alloc, name));
    };
    match Clock::read(alloc, &bytes) {
        Ok(clock) => Ok(clock),
        Err(ClockFault::OutOfMemory) => Err(Stop::OutOfMemory),
        Err(_) => Err(no_zone(alloc, name)),
    }
}
