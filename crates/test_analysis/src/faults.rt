// Tests of why files have no analysis.

use crate::files::{File, judged, levels_of, same_animal};
use range_analysis::{AnalyseFault, judge};
use range_collect::Followed;
use range_estimator::Estimator;
use range_fixes::ReadFault;
use range_line::open_line;
use range_plane::Scale;
use range_pump::{FreeGate, ThreadRuntime, pump};
use std::alloc::Global;
use std::process::Abort;
use std::test::Fail;
use test_doubles::{HEADER, ScriptedSource};
use test_files::{bad_records, files_without_fix};

// What a reader says of its file.
type Said = Result<&'static [u8], ReadFault>;

const A: Said = Ok(b"A");

const B: Said = Ok(b"B");

const BAD_HEADER: Said = Err(ReadFault::BadHeader);

const EMPTY: Said = Err(ReadFault::NoFixes);

const MEMORY: Said = Err(ReadFault::OutOfMemory);

// Why files of one fix have no analysis, of which their readers say this, and whose marks are sent or not.
fn fault_of<R: ThreadRuntime + Abort>(
    rt: &R,
    alloc: Global,
    files: &[(Said, bool)],
) -> Result<Option<AnalyseFault>, Fail> {
    let mut all = Vec::new(alloc);
    for &(said, mark) in files {
        let fixes = &[(0, 1, 2)];
        all.push(File { said, fixes, mark })?;
    }
    Ok(judged(rt, alloc, &all, &[])?.err())
}

// Checks that files of one fix have no analysis for this reason.
fn expect_fault<R: ThreadRuntime + Abort>(
    rt: &R,
    alloc: Global,
    files: &[(Said, bool)],
    fault: AnalyseFault,
) -> Result<(), Fail> {
    assert!(rt; fault_of(rt, alloc, files)? == Some(fault));
    Ok(())
}

#[test]
fn faults_are_judged_by_how_far_they_reach(rt: HostRuntime) -> Result<(), Fail> {
    let alloc = rt.alloc();
    let of_file = |file, fault| AnalyseFault::File { file, fault };
    let line_cut = |file| AnalyseFault::LineCut { file };
    let memory = AnalyseFault::OutOfMemory;
    expect_fault(&rt, alloc, &[(EMPTY, false)], line_cut(0))?;
    expect_fault(&rt, alloc, &[(BAD_HEADER, true), (A, false)], line_cut(1))?;
    expect_fault(&rt, alloc, &[(A, false), (A, false)], line_cut(0))?;
    let files = [(A, true), (A, true), (B, false)];
    expect_fault(&rt, alloc, &files, line_cut(2))?;
    expect_fault(&rt, alloc, &[(A, false), (MEMORY, true)], memory)?;
    let memory = AnalyseFault::OutOfMemory;
    expect_fault(&rt, alloc, &[(BAD_HEADER, true), (MEMORY, false)], memory)?;
    let header = of_file(0, ReadFault::BadHeader);
    expect_fault(&rt, alloc, &[(BAD_HEADER, true), (EMPTY, true)], header)?;
    let empty = of_file(1, ReadFault::NoFixes);
    let files = [(A, true), (EMPTY, true), (A, true)];
    expect_fault(&rt, alloc, &files, empty)?;
    let header = of_file(2, ReadFault::BadHeader);
    expect_fault(
        &rt,
        alloc,
        &[(A, true), (A, true), (BAD_HEADER, true)],
        header,
    )?;
    let memory = AnalyseFault::OutOfMemory;
    let files = [(A, true), (A, true), (B, false), (MEMORY, true)];
    expect_fault(&rt, alloc, &files, memory)
}

// Checks that the fault of one of eight files is answered as that file's, whichever it is, also where the last
// has another fault.
fn expect_of_file<R: ThreadRuntime + Abort>(
    rt: &R,
    alloc: Global,
    fault: ReadFault,
) -> Result<(), Fail> {
    let names = [b"A".as_slice(), b"B", b"C", b"D", b"E", b"F", b"G", b"H"];
    for (file, last) in [(0u32, A), (3, BAD_HEADER), (6, EMPTY), (7, Err(fault))] {
        let mut files = Vec::new(alloc);
        for (index, name) in names.iter().enumerate() {
            let said = match index {
                _ if index == file as usize => Err(fault),
                7 => last,
                _ => Ok(*name),
            };
            files.push((said, true))?;
        }
        let expected = AnalyseFault::File { file, fault };
        let said = fault_of(rt, alloc, &files)?;
        assert!(rt; said.as_ref() == Some(&expected), "{expected}");
    }
    Ok(())
}

#[test]
fn the_fault_of_one_of_eight_files_is_answered_as_its_own(rt: HostRuntime) -> Result<(), Fail> {
    for file in bad_records(6, Scale::Decimetre) {
        expect_of_file(&rt, rt.alloc(), file.fault)?;
    }
    for file in files_without_fix() {
        expect_of_file(&rt, rt.alloc(), file.fault)?;
    }
    expect_of_file(&rt, rt.alloc(), ReadFault::TooManyFixes)
}

// A header alone, pumped on a line whose taker is gone: its mark was handed back, so its line was cut.
#[test]
fn a_mark_that_was_handed_back_is_a_cut_line(rt: HostRuntime) -> Result<(), Fail> {
    let alloc = rt.alloc();
    let (mut feeders, taker) = open_line(alloc, 0, 1, 1, 1)?;
    let feeder = feeders.pop().ok_or("no feeder")?;
    drop(taker);
    let source = ScriptedSource::new(HEADER, 8192);
    let pumped = pump(&rt, alloc, source, feeder, &FreeGate, 1, Scale::Metre);
    assert!(rt; matches!(pumped.read, Err(ReadFault::NoFixes)), "the fault");
    assert!(rt; !pumped.feeder.closed(), "the mark");
    let mut all = Vec::with_capacity(alloc, 1)?;
    all.push_reserved(Followed {
        feeder: pumped.feeder,
        read: pumped.read,
        estimator: Estimator::new(alloc),
        marked: false,
    });
    let levels = levels_of(alloc, &[50, 95, 100])?;
    let fault = judge(&rt, alloc, all, &levels, Scale::Metre).err();
    assert!(rt; fault == Some(AnalyseFault::LineCut { file: 0 }));
    Ok(())
}

// Names are compared by their bytes.
#[test]
fn animals_are_the_same_where_all_bytes_of_their_names_are(rt: HostRuntime) -> Result<(), Fail> {
    let cases: [(&[&[u8]], Option<(u32, u32, &[u8])>); 8] = [
        (&[b"A", b"B", b"A"], Some((0, 2, b"A"))),
        (&[b"A", b"B"], None),
        (&[b"A", b"a", b"AA", b"", b"BA"], None),
        (&[b"A", b"B", b"B", b"A"], Some((1, 2, b"B"))),
        (&[b"AB", b"B", b"C", b"AB", b"B"], Some((0, 3, b"AB"))),
        (&[b"A", b"A", b"A"], Some((0, 1, b"A"))),
        (
            &[b"fox", b"foxes", b"fo", b"hare", b"owl", b"hare"],
            Some((3, 5, b"hare")),
        ),
        (&[b"fox", b"foxes", b"fo", b"hare", b"owl", b"har"], None),
    ];
    for (names, repeat) in cases {
        let mut files = Vec::new(rt.alloc());
        for name in names {
            files.push((Ok(*name), true))?;
        }
        let fault = match repeat {
            Some((first, second, name)) => Some(same_animal(rt.alloc(), first, second, name)?),
            None => None,
        };
        assert!(rt; fault_of(&rt, rt.alloc(), &files)? == fault);
    }
    Ok(())
}

// Checks what is said of a fault.
fn expect_text(
    rt: &impl Abort,
    alloc: Global,
    fault: &AnalyseFault,
    text: &str,
) -> Result<(), Fail> {
    assert!(rt; format!(in alloc; "{fault}")?.as_str() == text);
    Ok(())
}

#[test]
fn each_fault_has_its_text(rt: HostRuntime) -> Result<(), Fail> {
    let alloc = rt.alloc();
    let text = "out of memory, or a thread could not be started";
    expect_text(&rt, alloc, &AnalyseFault::OutOfMemory, text)?;
    let cut = AnalyseFault::LineCut { file: 3 };
    expect_text(&rt, alloc, &cut, "its fixes were not all handed on")?;
    let fault = ReadFault::NoFixes;
    let empty = AnalyseFault::File { file: 1, fault };
    let text = "no record after the header, or none that is used";
    expect_text(&rt, alloc, &empty, text)?;
    let same = same_animal(alloc, 0, 2, b"A")?;
    expect_text(&rt, alloc, &same, "have the same animal")
}
