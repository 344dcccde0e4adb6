// What the words ask for, done.

use crate::folder::{refuse_there, write_tracks};
use crate::read::{Exports, read_exports};
use crate::record::{all_read, name_of};
use crate::screen::Screen;
use crate::several::{join_exports, placed};
use crate::stop::Stop;
use crate::text::{table_in, text_of};
use itoa::Buffer;
use range_plane::{OutOfMemory, Scale};
use split_chain::{Split, Wish, split_export};
use split_clock::Clock;
use split_export::Asked;
use split_output::Origin;
use split_reading::Progress;
use split_refusal::{Kind, Refusal};
use split_titles::Named;
use split_words::{Choices, NamedColumns, VERSION, Words};
use std::alloc::Global;
use std::io::{IsTerminal, Read, Write};
use std::rt;
use std::rt::Files;

// The columns that the words name, where filters look at some.
fn named_of<'a>(
    words: &Words<'a>,
    columns: &'a NamedColumns<'a>,
    choices: &Choices<'_>,
) -> Named<'a> {
    Named {
        animal: &columns.animal,
        time: &columns.time,
        easting: columns.easting,
        northing: columns.northing,
        lon: columns.lon,
        lat: columns.lat,
        argos: columns.argos,
        dop: columns.dop,
        fix: columns.fix,
        zone: words.zone_name.map(str::as_bytes),
        has_name: words.name.is_some(),
        has_argos_class: choices.takes_classes(),
        has_max_dop: choices.most_dop.is_some(),
        has_fix_type: !choices.types.is_empty(),
    }
}

// What the words wish of tracks, which choose such fixes, by this clock.
fn wish_of<'a>(
    words: &Words<'a>,
    choices: &'a Choices<'a>,
    clock: &'a Clock,
    exports: split_said::Exports<'a>,
    other_points: usize,
) -> Wish<'a> {
    Wish {
        exports,
        other_points,
        zone: words.zone,
        system: words.system.unwrap_or("").as_bytes(),
        keeps_marks: words.keeps_marks,
        lists_records: words.lists_records,
        speed: choices.speed,
        every: choices.every,
        clock,
        classes: choices.class_words.as_bytes(),
        types: choices.type_words.as_bytes(),
        since: choices.since_words.unwrap_or("").as_bytes(),
        until: choices.until_words.unwrap_or("").as_bytes(),
        needs_time: choices.needs_time(),
        names_missing: words.names_missing,
        forms: words.form_words,
        clock_name: words.clock_name(),
    }
}

// A table, and the exports of which it was made.
#[derive(Clone, Copy)]
struct Source<'a> {
    table: &'a [u8],
    // Whether commas may stand before decimals also where they part its fields.
    has_commas: bool,
    // Of one export nothing has to be told.
    names: &'a [&'a [u8]],
    counts: &'a [u32],
    // How many points of GPX are not read.
    other_points: usize,
}

// Splits a table, of which the words ask this.
fn split_asked<'a, P: Progress>(
    alloc: Global,
    source: Source<'a>,
    words: &Words<'a>,
    missing: &'a [&'a [u8]],
    named: Named<'a>,
    choices: &'a Choices<'a>,
    clock: &'a Clock,
    progress: &mut P,
) -> Result<Split, Refusal> {
    let filters = choices.filters();
    let exports = split_said::Exports {
        names: source.names,
        counts: source.counts,
    };
    let wish = wish_of(words, choices, clock, exports, source.other_points);
    let asked = Asked {
        named,
        name: words.name.unwrap_or("animal").as_bytes(),
        unit: words.unit,
        has_commas: source.has_commas,
        missing,
        forms: words.forms,
        clock: Some(clock),
        filters,
        needs_time: !wish.needs_time.is_empty(),
        skips_unnamed: words.skips_unnamed,
    };
    split_export(
        alloc,
        source.table,
        words.first_export().as_bytes(),
        &asked,
        &wish,
        progress,
    )
}

// The same, where the words name such columns.
fn split_named<'a, P: Progress>(
    alloc: Global,
    source: Source<'a>,
    words: &Words<'a>,
    missing: &'a [&'a [u8]],
    columns: &'a NamedColumns<'a>,
    choices: &'a Choices<'a>,
    clock: &'a Clock,
    progress: &mut P,
) -> Result<Split, Refusal> {
    let named = named_of(words, columns, choices);
    split_asked(
        alloc, source, words, missing, named, choices, clock, progress,
    )
}

// The same, with all that the words ask.
fn split_source<P: Progress>(
    alloc: Global,
    source: Source<'_>,
    words: &Words<'_>,
    clock: &Clock,
    progress: &mut P,
) -> Result<Split, Refusal> {
    split_named(
        alloc,
        source,
        words,
        &words.missing,
        &words.columns,
        &words.choices,
        clock,
        progress,
    )
}

// Splits the text of one export.
fn split_text<P: Progress>(
    alloc: Global,
    text: &[u8],
    other_points: usize,
    words: &Words<'_>,
    clock: &Clock,
    progress: &mut P,
) -> Result<Split, Refusal> {
    let source = Source {
        table: table_in(alloc, text, words)?,
        has_commas: false,
        names: &[],
        counts: &[],
        other_points,
    };
    split_source(alloc, source, words, clock, progress)
}

// Splits the bytes of one export.
fn split_one<P: Progress>(
    alloc: Global,
    bytes: &[u8],
    words: &Words<'_>,
    clock: &Clock,
    progress: &mut P,
) -> Result<Split, Refusal> {
    let text = text_of(alloc, words.first_export(), bytes, words)?;
    let table = text.own.as_deref().unwrap_or(bytes);
    split_text(alloc, table, text.other_points, words, clock, progress)
}

// The names at the end of paths.
fn names_of<'a>(alloc: Global, paths: &[&'a str]) -> Result<Vec<&'a [u8]>, OutOfMemory> {
    let mut names: Vec<&[u8]> = Vec::new(alloc);
    for path in paths {
        names.push(name_of(path).as_bytes())?;
    }
    Ok(names)
}

// Splits the bytes of several exports, as those of one table.
fn split_several<P: Progress>(
    alloc: Global,
    all: &[Vec<u8>],
    words: &Words<'_>,
    clock: &Clock,
    progress: &mut P,
) -> Result<Split, Refusal> {
    let several = join_exports(alloc, words, all)?;
    let joined = &several.joined;
    let Ok(names) = names_of(alloc, &words.exports) else {
        return Err(Refusal::out_of_memory(alloc));
    };
    let source = Source {
        table: &joined.text,
        has_commas: joined.has_commas,
        names: &names,
        counts: &joined.counts,
        other_points: several.other_points,
    };
    match split_source(alloc, source, words, clock, progress) {
        Ok(split) => Ok(split),
        Err(refusal) => Err(placed(alloc, refusal, &words.exports, &joined.counts)),
    }
}

// Splits the bytes of all exports.
fn split_all<P: Progress>(
    alloc: Global,
    all: &[Vec<u8>],
    words: &Words<'_>,
    clock: &Clock,
    progress: &mut P,
) -> Result<Split, Refusal> {
    match all {
        [one] => split_one(alloc, one, words, clock, progress),
        _ => split_several(alloc, all, words, clock, progress),
    }
}

// How many records the tracks have.
fn record_count(split: &Split) -> usize {
    let mut count: usize = 0;
    for file in split.files.iter() {
        count = count.saturating_add(file.records);
    }
    count
}

// The line that names the folder.
fn last_line(alloc: Global, words: &Words<'_>, split: &Split) -> Result<Vec<u8>, OutOfMemory> {
    let mut line = Vec::new(alloc);
    let mut buffer = Buffer::new();
    line.extend_from_slice(buffer.format(record_count(split)).as_bytes())?;
    line.extend_from_slice(b" fixes of ")?;
    line.extend_from_slice(buffer.format(split.order.len()).as_bytes())?;
    line.extend_from_slice(b" animals are in ")?;
    line.extend_from_slice(words.into.as_bytes())?;
    line.extend_from_slice(match words.unit {
        Scale::Metre => b", in m",
        Scale::Decimetre => b", in dm",
    })?;
    Ok(line)
}

// Says the last line.
fn say_last(alloc: Global, words: &Words<'_>, split: &mut Split) -> Result<(), OutOfMemory> {
    let line = last_line(alloc, words, split)?;
    split.said.say(alloc, &line)
}

// Writes the folder of tracks, which were made as the words ask of exports with these checksums.
fn write_made<R: Files + AllocGlobal>(
    rt: &R,
    words: &Words<'_>,
    sums: &[[u8; 64]],
    split: &Split,
) -> Result<(), Stop> {
    let alloc = rt.alloc();
    let Ok(exports) = all_read(alloc, &words.exports, sums) else {
        return Err(Stop::from(Refusal::out_of_memory(alloc)));
    };
    let Ok(tool) = format!(in alloc; "homerange-split {VERSION}") else {
        return Err(Stop::from(Refusal::out_of_memory(alloc)));
    };
    let origin = Origin {
        exports: &exports,
        unit: words.unit,
        options: &words.given,
        tool: tool.as_bytes(),
    };
    write_tracks(rt, words.into, &origin, split)
}

/// Splits the exports that the words name, whose times are those of this clock, and writes the folder of its tracks. Answers what is
/// said of that. The screen shows how far it is.
///
/// # Errors
///
/// Why there is no folder.
pub(crate) fn run<R: Files + rt::Clock + AllocGlobal, I: Read, X: Write + IsTerminal>(
    rt: &R,
    words: &Words<'_>,
    clock: &Clock,
    input: &mut I,
    screen: &mut Screen<'_, R, X>,
) -> Result<Vec<Vec<u8>>, Stop> {
    let alloc = rt.alloc();
    refuse_there(rt, words.into)?;
    let Exports { all, sums } = read_exports(rt, words, input)?;
    screen.count_lines(&all);
    let mut split = split_all(alloc, &all, words, clock, screen)?;
    write_made(rt, words, &sums, &split)?;
    // A line that names the folder and for which there is no memory is not said: the folder is there.
    let _ = say_last(alloc, words, &mut split);
    Ok(split.said.lines)
}
