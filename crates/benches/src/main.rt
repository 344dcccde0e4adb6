//! Times the parts that the words of the command line name, in their order, and all four where there is no
//! word: `lanes`, `hull`, `percents` and `follow`. Points are read from standard input, an easting and a
//! northing in each line. What a part came to is printed, and the microseconds that it took are said on
//! standard error.
#![tactic(auto)]

mod follow;
mod hull;
mod lanes;
mod percents;

use anyhow::bail;
use follow::time_follow;
use hull::time_hull;
use lanes::time_lanes;
use percents::time_percents;
use std::alloc::Global;
use std::{env, io};

#[derive(Clone, Copy)]
enum Part {
    Lanes,
    Hull,
    Percents,
    Follow,
}

const ALL: [Part; 4] = [Part::Lanes, Part::Hull, Part::Percents, Part::Follow];

// The part that a word names.
fn part_of(word: &str) -> Result<Part, anyhow::Error> {
    match word {
        "lanes" => Ok(Part::Lanes),
        "hull" => Ok(Part::Hull),
        "percents" => Ok(Part::Percents),
        "follow" => Ok(Part::Follow),
        _ => bail!("'{word}' is none of lanes, hull, percents and follow"),
    }
}

// The parts that the words name, of which the first is the program's name.
fn parts_of(alloc: Global, words: &[String]) -> Result<Vec<Part>, anyhow::Error> {
    let mut parts = Vec::new(alloc);
    for word in words.iter().skip(1) {
        parts.push(part_of(word)?)?;
    }
    if parts.is_empty() {
        parts.extend_from_slice(&ALL)?;
    }
    Ok(parts)
}

fn main(rt: HostRuntime) -> Result<(), anyhow::Error> {
    let words: Vec<String> = env::args(&rt)?.collect(rt.alloc())?;
    let parts = parts_of(rt.alloc(), &words)?;
    let text = io::read_to_string(rt.alloc(), rt.reader())?;
    for part in parts {
        match part {
            Part::Lanes => time_lanes(&rt, &text)?,
            Part::Hull => time_hull(&rt, &text)?,
            Part::Percents => time_percents(&rt)?,
            Part::Follow => time_follow(&rt, rt.alloc(), &text)?,
        }
    }
    Ok(())
}
