// What words ask for.

use crate::folder::read_folder;
use crate::stop::Stop;
use crate::write::write_files;
use page_files::{Given, Words, files_of};
use page_html::Made;
use page_words::PageWords;
use split_clock::Clock;
use std::rt::Files;

// The bytes of a text, if there is one.
fn bytes(text: Option<&str>) -> Option<&[u8]> {
    text.map(str::as_bytes)
}

// What was typed in for a page.
fn typed<'a>(words: &'a PageWords<'a>) -> page_html::Words<'a> {
    page_html::Words {
        title: bytes(words.title),
        study: bytes(words.study),
        species: bytes(words.species),
        by: bytes(words.by),
        reference: bytes(words.reference),
        purpose: bytes(words.purpose),
        boundary: bytes(words.boundary),
    }
}

// What tables and a page need beside the files of the folder.
fn words_of<'a>(words: &'a PageWords<'a>, clock: &'a Clock) -> Words<'a> {
    Words {
        page: typed(words),
        made: Made {
            day: words.made,
            version: words.program.as_bytes(),
            sum: bytes(words.program_sum),
        },
        zone: words.clock.as_bytes(),
        clock,
        system: bytes(words.system),
        shift: words.shift,
        differences: words.differences,
        is_alone: words.is_alone,
        is_data: words.is_data,
    }
}

/// Makes the tables and the page of the folder that words name, with dates by a clock.
///
/// # Errors
///
/// Why they are not made.
pub(crate) fn make<'a, R: Files + AllocGlobal + Clone + Drop>(
    rt: &R,
    words: &'a PageWords<'a>,
    clock: &'a Clock,
) -> Result<(), Stop> {
    let read = read_folder(rt, words.folder)?;
    let given = Given {
        report: &read.report,
        record: read.record.as_deref(),
        boundary: read.boundary.as_deref(),
        tracks: read.tracks.as_deref(),
    };
    let typed = words_of(words, clock);
    let made = files_of(rt.alloc(), &given, &typed)?;
    write_files(rt, words.folder, &made)
}
