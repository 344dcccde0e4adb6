//! Projects places into zones of UTM. Standard input has a place and a zone in each line, as `15805899000000,46356742000000,33N`:
//! longitude and latitude in trillionths of a degree. Of each the easting and the northing in metres are printed, to a
//! micrometre, or `none` where it has no position in the zone. How many microseconds all of them took, without reading and
//! printing, is said on standard error.
#![tactic(auto)]

use anyhow::bail;
use split_projection::{Degrees, project};
use std::alloc::Global;
use std::io;
use std::io::{BufWriter, Write};
use std::time::Instant;

// A place and the zone that it is projected into.
#[derive(Clone, Copy)]
struct Wanted {
    at: Degrees,
    number: u8,
    is_south: bool,
}

// The number of a zone as `33N`, and whether it is of the south.
fn zone_in(text: &str) -> Option<(u8, bool)> {
    match text.strip_suffix('S') {
        Some(number) => Some((number.parse().ok()?, true)),
        None => Some((text.strip_suffix('N')?.parse().ok()?, false)),
    }
}

// What a line wants.
fn wanted_in(line: &str) -> Option<Wanted> {
    let (longitude, rest) = line.split_once(',')?;
    let (latitude, zone) = rest.split_once(',')?;
    let (number, is_south) = zone_in(zone)?;
    let at = Degrees {
        longitude: longitude.parse().ok()?,
        latitude: latitude.parse().ok()?,
    };
    Some(Wanted {
        at,
        number,
        is_south,
    })
}

// What the lines of a text want.
fn all_wanted(alloc: Global, text: &str) -> Result<Vec<Wanted>, anyhow::Error> {
    let mut all = Vec::new(alloc);
    for line in text.lines() {
        match wanted_in(line) {
            Some(wanted) => all.push(wanted)?,
            None => bail!("'{line}' is no place and zone"),
        }
    }
    Ok(all)
}

// The positions of places.
fn positions(alloc: Global, all: &[Wanted]) -> Result<Vec<Option<(f64, f64)>>, anyhow::Error> {
    let mut found = Vec::with_capacity(alloc, all.len())?;
    for wanted in all {
        found.push(project(wanted.at, wanted.number, wanted.is_south))?;
    }
    Ok(found)
}

fn main(rt: HostRuntime) -> Result<(), anyhow::Error> {
    let text = io::read_to_string(rt.alloc(), rt.reader())?;
    let all = all_wanted(rt.alloc(), &text)?;
    let start = Instant::now(&rt)?;
    let found = positions(rt.alloc(), &all)?;
    let took = start.elapsed(&rt)?.as_micros();
    let mut out = BufWriter::new(rt.alloc(), rt.stdout())?;
    for position in found {
        match position {
            Some((easting, northing)) => writeln!(out, "{easting:.6},{northing:.6}")?,
            None => writeln!(out, "none")?,
        }
    }
    out.flush()?;
    eprintln!(rt; "{took}")?;
    Ok(())
}
