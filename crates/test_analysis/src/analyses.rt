// Tests of sources that are analysed: in several plans, with names of every length, and with faults.

use crate::files::{levels_of, same_animal};
use crate::tables::{FOX_TABLES, HARE_TABLES, expect_animals, overlap};
use range_analysis::{AnalyseFault, Analysis, analyse};
use range_fixes::ReadFault;
use range_options::{BLOCK_LIMIT, DEPTH_LIMIT, FILE_LIMIT, Plan, WORKER_LIMIT};
use range_plane::Scale;
use range_pump::{Gate, ThreadRuntime};
use std::alloc::Global;
use std::process::Abort;
use std::sync::atomic::{AtomicBool, AtomicU64, Ordering};
use std::test::Fail;
use std::thread;
use test_doubles::{HEADER, ScriptedSource};
use test_files::{BadFile, bad_records, files_without_fix, too_many_records};

const FOX: &[u8] =
    b"animal,second,easting,northing\nfox,0,0,0\nfox,60,10,0\nfox,120,10,10\nfox,180,0,10\nfox,240,5,5\n";

const HARE: &[u8] = b"animal,second,easting,northing\nhare,0,5,5\nhare,60,10,5\nhare,120,20,5\n";

// How many turns a call waits for others.
const MOST_TURNS: u64 = 10_000_000;

// Counts the messages that are sent and those that are taken, and the workers that are in a call at once,
// which wait for each other: as many as there are lines, and no more.
#[derive(Drop)]
struct Counting {
    lines: u64,
    sends: AtomicU64,
    takes: AtomicU64,
    workers: AtomicU64,
    has_met: AtomicBool,
    is_crowded: AtomicBool,
}

impl Counting {
    fn new(lines: u64) -> Counting {
        Counting {
            lines,
            sends: AtomicU64::new(0),
            takes: AtomicU64::new(0),
            workers: AtomicU64::new(0),
            has_met: AtomicBool::new(false),
            is_crowded: AtomicBool::new(false),
        }
    }

    // Whether so many messages were sent and taken, by a worker for each line.
    fn has_counted(&self, messages: u64) -> bool {
        self.sends.load(Ordering::SeqCst) == messages
            && self.takes.load(Ordering::SeqCst) == messages
            && self.has_met.load(Ordering::SeqCst)
            && !self.is_crowded.load(Ordering::SeqCst)
    }
}

impl Gate for Counting {
    fn before_send(&self, _file: u32, _place: u64) {
        self.sends.fetch_add(1, Ordering::SeqCst);
    }

    fn after_take(&self, _file: u32, _place: u64) {
        self.takes.fetch_add(1, Ordering::SeqCst);
        let others = self.workers.fetch_add(1, Ordering::SeqCst);
        if others >= self.lines {
            self.is_crowded.store(true, Ordering::SeqCst);
        }
        if others.saturating_add(1) == self.lines {
            self.has_met.store(true, Ordering::SeqCst);
        }
        for _turn in 0..MOST_TURNS {
            if self.has_met.load(Ordering::SeqCst) {
                break;
            }
            thread::yield_now();
        }
        self.workers.fetch_sub(1, Ordering::SeqCst);
    }
}

// What these sources come to by this plan, at three levels.
pub(crate) fn analysed<R: ThreadRuntime + Abort, G: Gate>(
    rt: &R,
    alloc: Global,
    sources: Vec<ScriptedSource<'_>>,
    gate: &G,
    plan: Plan,
) -> Result<Result<Analysis, AnalyseFault>, Fail> {
    assert!(rt;
        !sources.is_empty() && sources.len() <= FILE_LIMIT as usize,
        "sources"
    );
    let levels = levels_of(alloc, &[50, 95, 100])?;
    Ok(analyse(rt, alloc, sources, gate, plan, &levels))
}

// Each plan comes to the same, and its blocks are those that are sent: a mark a file besides.
#[test]
fn each_plan_has_the_same_analysis_and_sends_its_blocks(rt: HostRuntime) -> Result<(), Fail> {
    for (block, depth, workers, messages) in [
        (1, 1, 1, 10),
        (2, 4, 2, 7),
        (3, DEPTH_LIMIT, WORKER_LIMIT, 5),
        (4, 1, 2, 5),
        (5, 2, 1, 4),
        (BLOCK_LIMIT, 4, 2, 4),
    ] {
        let unit = Scale::Metre;
        let plan = Plan::new(block, depth, workers, unit).ok_or("no plan")?;
        let sources = vec![in rt.alloc();
            ScriptedSource::new(FOX, 8192),
            ScriptedSource::new(HARE, 8),
        ]?;
        let gate = Counting::new(u64::from(workers.min(2)));
        let analysis = analysed(&rt, rt.alloc(), sources, &gate, plan)?
            .ok()
            .ok_or("no analysis")?;
        expect_animals(&rt, &analysis, &[FOX_TABLES, HARE_TABLES]);
        let overlaps = [overlap(0, 1, 1, 5), overlap(1, 0, 2, 3)];
        assert!(rt;
            analysis.overlaps.as_slice() == overlaps.as_slice(),
            "overlaps"
        );
        assert!(rt; analysis.unit == unit, "the unit");
        assert!(rt; gate.has_counted(messages), "messages in blocks of {block}");
    }
    Ok(())
}

// The text of a file of one fix, of an animal with this name.
fn one_fix_of(alloc: Global, name: &[u8]) -> Result<Vec<u8>, Fail> {
    let mut text = Vec::from_slice(alloc, HEADER)?;
    text.extend_from_slice(name)?;
    text.extend_from_slice(b",0,16777217,3\n")?;
    Ok(text)
}

#[test]
fn names_are_kept_whole_and_the_unit_is_that_of_the_plan(rt: HostRuntime) -> Result<(), Fail> {
    let alloc = rt.alloc();
    let longest = b"abcdefghijklmnopqrstuvwxyz012345";
    let mut texts = Vec::new(alloc);
    for length in 1..=longest.len() {
        texts.push(one_fix_of(alloc, &longest[..length])?)?;
    }
    let mut sources = Vec::new(alloc);
    for text in &texts {
        sources.push(ScriptedSource::new(text.as_slice(), 8192))?;
    }
    let plan = Plan::new(256, 4, WORKER_LIMIT, Scale::Decimetre).ok_or("no plan")?;
    let gate = Counting::new(u64::from(WORKER_LIMIT));
    let analysis = analysed(&rt, alloc, sources, &gate, plan)?
        .ok()
        .ok_or("no analysis")?;
    assert!(rt; analysis.unit == Scale::Decimetre, "the unit");
    assert!(rt;
        analysis.animals.as_slice().len() == longest.len(),
        "animals"
    );
    for (index, animal) in analysis.animals.as_slice().iter().enumerate() {
        let name = animal.name.as_slice();
        assert!(rt; name.len() == index.saturating_add(1), "name {index}");
        assert!(rt; longest.starts_with(name), "name {index}");
    }
    assert!(rt; gate.has_counted(64), "messages");
    Ok(())
}

// The bytes of eight files of one fix each, of the animals A to H.
fn eight_texts(alloc: Global) -> Result<Vec<Vec<u8>>, Fail> {
    let mut texts = Vec::new(alloc);
    for name in [b"A", b"B", b"C", b"D", b"E", b"F", b"G", b"H"] {
        texts.push(one_fix_of(alloc, name)?)?;
    }
    Ok(texts)
}

// Why eight files have no analysis, of which those with these numbers are bad and all others are good.
fn fault_of_eight<R: ThreadRuntime + Abort>(
    rt: &R,
    alloc: Global,
    bad: &[(u32, BadFile)],
) -> Result<Option<AnalyseFault>, Fail> {
    let texts = eight_texts(alloc)?;
    let mut sources = Vec::new(alloc);
    for (file, good) in texts.iter().enumerate() {
        let found = bad.iter().find(|(number, _)| *number as usize == file);
        sources.push(match found {
            Some((_, bad)) => bad.source(),
            None => ScriptedSource::new(good.as_slice(), 8192),
        })?;
    }
    let plan = Plan::new(2, 4, 3, Scale::Decimetre).ok_or("no plan")?;
    Ok(analysed(rt, alloc, sources, &Counting::new(3), plan)?.err())
}

// Checks that the first of these bad files is answered, with its fault.
fn expect_first<R: ThreadRuntime + Abort>(
    rt: &R,
    alloc: Global,
    bad: &[(u32, BadFile)],
) -> Result<(), Fail> {
    let (file, first) = *bad.first().ok_or("no bad file")?;
    let fault = first.fault;
    let expected = AnalyseFault::File { file, fault };
    let said = fault_of_eight(rt, alloc, bad)?;
    assert!(rt; said.as_ref() == Some(&expected), "{expected}");
    Ok(())
}

// Each fault is answered as that of its file, which has each number in turn.
#[test]
fn a_fault_is_answered_as_that_of_its_file(rt: HostRuntime) -> Result<(), Fail> {
    let unit = Scale::Decimetre;
    let (records, files) = (bad_records(3, unit), files_without_fix());
    let mut number = 0u32;
    for file in records.iter().chain(files.iter()) {
        expect_first(&rt, rt.alloc(), &[(number, *file)])?;
        number = number.wrapping_add(3) % 8;
    }
    expect_first(&rt, rt.alloc(), &[(5, too_many_records())])
}

// Of two bad files, also of one source that fails, the first is answered.
#[test]
fn of_two_bad_sources_the_first_is_answered(rt: HostRuntime) -> Result<(), Fail> {
    let (firsts, lasts) = (
        bad_records(3, Scale::Decimetre),
        bad_records(0, Scale::Decimetre),
    );
    let following = lasts.iter().skip(1).chain(lasts.iter().take(1));
    for (&first, &last) in firsts.iter().zip(following) {
        expect_first(&rt, rt.alloc(), &[(2, first), (6, last)])?;
    }
    Ok(())
}

// What six files come to by this plan, of which the fourth and the last have one animal, and one may be bad.
fn fault_of_six<R: ThreadRuntime + Abort>(
    rt: &R,
    alloc: Global,
    bad: Option<BadFile>,
) -> Result<Option<AnalyseFault>, Fail> {
    let mut texts = Vec::new(alloc);
    for name in [b"fox".as_slice(), b"foxes", b"fo", b"hare", b"owl", b"hare"] {
        texts.push(one_fix_of(alloc, name)?)?;
    }
    let mut sources = Vec::new(alloc);
    for (file, good) in texts.iter().enumerate() {
        sources.push(match bad {
            Some(bad) if file == 4 => bad.source(),
            _ => ScriptedSource::new(good.as_slice(), 8192),
        })?;
    }
    let plan = Plan::new(2, 4, 2, Scale::Decimetre).ok_or("no plan")?;
    Ok(analysed(rt, alloc, sources, &Counting::new(2), plan)?.err())
}

// An animal that stands in an earlier file is told where no file is bad.
#[test]
fn an_animal_in_two_files_is_answered_where_no_file_is_bad(rt: HostRuntime) -> Result<(), Fail> {
    let alloc = rt.alloc();
    let same = same_animal(alloc, 3, 5, b"hare")?;
    assert!(rt;
        fault_of_six(&rt, alloc, None)? == Some(same),
        "no bad file"
    );
    for bad in bad_records(1, Scale::Decimetre) {
        let (file, fault) = (4, bad.fault);
        let expected = AnalyseFault::File { file, fault };
        let said = fault_of_six(&rt, alloc, Some(bad))?;
        assert!(rt; said.as_ref() == Some(&expected), "{expected}");
    }
    Ok(())
}

// A source that fails is a fault of its file, also where another file has a fault behind it.
#[test]
fn a_source_that_fails_is_a_fault_of_its_file(rt: HostRuntime) -> Result<(), Fail> {
    for reads in 0..9 {
        let first = ScriptedSource::new(FOX, 8192);
        let second = ScriptedSource::failing(HARE, 8, reads);
        let last = ScriptedSource::new(b"", 8192);
        let sources = vec![in rt.alloc(); first, second, last]?;
        let plan = Plan::new(2, 4, 2, Scale::Metre).ok_or("no plan")?;
        let answer = analysed(&rt, rt.alloc(), sources, &Counting::new(2), plan)?;
        let (file, fault) = (1, ReadFault::Read);
        let expected = AnalyseFault::File { file, fault };
        assert!(rt; answer.err() == Some(expected), "after {reads} reads");
    }
    Ok(())
}

// Holds the messages of one file back until one of another file was taken, and keeps whether that came.
#[derive(Drop)]
struct Holding {
    held: u32,
    has_taken: AtomicBool,
    has_held: AtomicBool,
}

impl Gate for Holding {
    fn before_send(&self, file: u32, _place: u64) {
        if file != self.held {
            return;
        }
        for _turn in 0..MOST_TURNS {
            if self.has_taken.load(Ordering::SeqCst) {
                self.has_held.store(true, Ordering::SeqCst);
                return;
            }
            thread::yield_now();
        }
    }

    fn after_take(&self, file: u32, _place: u64) {
        if file != self.held {
            self.has_taken.store(true, Ordering::SeqCst);
        }
    }
}

// Of two files without a byte the first is told, also where the second ends first.
#[test]
fn of_two_empty_sources_the_first_is_answered(rt: HostRuntime) -> Result<(), Fail> {
    for (block, depth, workers) in [
        (1, 1, 1),
        (256, 4, 2),
        (BLOCK_LIMIT, DEPTH_LIMIT, WORKER_LIMIT),
    ] {
        for held in [0, 1] {
            let plan = Plan::new(block, depth, workers, Scale::Metre).ok_or("no plan")?;
            let sources = vec![in rt.alloc();
                ScriptedSource::new(b"", 8192),
                ScriptedSource::new(b"", 1),
            ]?;
            let gate = Holding {
                held,
                has_taken: AtomicBool::new(false),
                has_held: AtomicBool::new(false),
            };
            let answer = analysed(&rt, rt.alloc(), sources, &gate, plan)?;
            let (file, fault) = (0, ReadFault::NoHeader);
            let expected = AnalyseFault::File { file, fault };
            assert!(rt; answer.err() == Some(expected), "file {held} is held");
            assert!(rt; gate.has_held.load(Ordering::SeqCst), "file {held} is held");
        }
    }
    Ok(())
}
