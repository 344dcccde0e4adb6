// Why there are no tables and no page.

use page_levels::LevelFault;
use page_record::{RecordFault, sentence};
use page_report::ReadFault;
use range_plane::OutOfMemory;
use range_texts::Name;
use std::alloc::{AllocError, AllocFailed, Global};

/// Why there are no tables and no page of a folder.
#[derive(Drop)]
pub enum PageFault {
    OutOfMemory,
    /// A file is not right, or two do not agree. This says so, and may have signs that cannot be seen.
    Refused(String),
}

impl From<AllocError> for PageFault {
    fn from(_refused: AllocError) -> PageFault {
        PageFault::OutOfMemory
    }
}

impl From<OutOfMemory> for PageFault {
    fn from(_refused: OutOfMemory) -> PageFault {
        PageFault::OutOfMemory
    }
}

impl<T: Drop> From<AllocFailed<T>> for PageFault {
    fn from(_refused: AllocFailed<T>) -> PageFault {
        PageFault::OutOfMemory
    }
}

// The refusal of a text, if there is memory for it.
pub(crate) fn refused(text: Result<String, AllocError>) -> PageFault {
    match text {
        Ok(text) => PageFault::Refused(text),
        Err(AllocError) => PageFault::OutOfMemory,
    }
}

// How many lines a text has up to the place where so many are left.
fn line_at(text: &[u8], left: usize) -> usize {
    let lines = text.iter().filter(|byte| **byte == b'\n').count();
    lines.saturating_add(2).saturating_sub(left)
}

// Why a report is refused.
pub(crate) fn report_fault(alloc: Global, text: &[u8], fault: ReadFault) -> PageFault {
    match fault {
        ReadFault::OutOfMemory => PageFault::OutOfMemory,
        ReadFault::Line { left } => {
            let line = line_at(text, left);
            refused(format!(in alloc;
                "report.txt: line {line} is none that a report of homerange has there"
            ))
        }
    }
}

// Why a record is refused.
pub(crate) fn record_fault(alloc: Global, fault: RecordFault) -> PageFault {
    match fault {
        RecordFault::OutOfMemory => PageFault::OutOfMemory,
        RecordFault::Line { number, wrong } => {
            let words = sentence(wrong);
            refused(format!(in alloc; "tracks/split.txt: line {number}: {words}"))
        }
    }
}

// What is wrong with a track, beside the report.
fn track_words(fault: LevelFault) -> &'static str {
    match fault {
        LevelFault::OtherCount => "it has not as many fixes as the report",
        LevelFault::OtherExtent => "its fixes have another box than the report says",
        LevelFault::OtherRow => "its fixes have other rows than the report says",
        LevelFault::OtherCorner => "its fixes have other corners than the report says",
        LevelFault::OtherPercent { .. } =>
            "its fixes have another percent polygon than the report says",
        _ => "it is not the track that the report was made of",
    }
}

// Why a track is refused.
pub(crate) fn track_fault(alloc: Global, file: &str, fault: LevelFault) -> PageFault {
    match fault {
        LevelFault::OutOfMemory => PageFault::OutOfMemory,
        LevelFault::Unread(fault) => refused(format!(in alloc; "tracks/{file}: {fault}")),
        fault => {
            let words = track_words(fault);
            refused(format!(in alloc; "tracks/{file}: {words}: was it changed?"))
        }
    }
}

// Why a file of an animal is refused.
pub(crate) fn animal_fault(alloc: Global, file: &str, animal: &[u8], words: &str) -> PageFault {
    let name = Name { bytes: animal };
    refused(format!(in alloc; "tracks/{file}: {words} {name}"))
}
