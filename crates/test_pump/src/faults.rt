// Tests of the pump over files with each fault of their reader, in one thread.

use crate::pumps::{Expecting, FILE, ends, open_one};
use range_line::Message;
use range_plane::{Fix, Scale};
use range_pump::pump;
use std::alloc::Global;
use std::process::Abort;
use std::sync::Wait;
use std::test::Fail;
use test_files::{BadFile, bad_records, files_without_fix, too_many_records};
use test_line::{block_of, is_mark};

// Whether this is a good fix of a bad file.
fn is_good(fix: &Fix) -> bool {
    fix.second == 7 && fix.at.e == 1 && fix.at.n == 2
}

// Whether this is the block of `count` good fixes at the place.
fn is_good_block(taken: &Option<Message>, place: u32, count: u32) -> bool {
    block_of(taken, FILE, u64::from(place)).is_some_and(|fixes| {
        fixes.len() == count as usize && fixes.iter().all(|fix| is_good(fix))
    })
}

// Checks that a pump answers the fault of the file as it is, with the fixes before it sent in blocks of this
// size, and that the mark is offered behind them and sent.
fn expect_pumped<R: Wait + Abort>(
    rt: &R,
    alloc: Global,
    file: BadFile,
    block: u32,
    unit: Scale,
) -> Result<(), Fail> {
    let (fixes, fault) = (u64::from(file.fixes), file.fault);
    let (feeder, mut taker) = open_one(alloc, 8)?;
    let gate = Expecting::new(&[]);
    assert!(rt; 1 <= block && block <= 1024, "a block");
    let pumped = pump(rt, alloc, file.source(), feeder, &gate, block, unit);
    assert!(rt;
        ends(&pumped, fixes, true, fault),
        "{fault}, in blocks of {block}"
    );
    for number in 0..file.fixes {
        let place = number.saturating_mul(block);
        if place >= file.fixes {
            break;
        }
        let count = block.min(file.fixes - place);
        assert!(rt;
            is_good_block(&taker.take(rt), place, count),
            "{fault}: the block at {place} of {block}"
        );
    }
    assert!(rt; is_mark(&taker.take(rt), FILE, fixes), "{fault}: the mark");
    Ok(())
}

// In the first record, within a block, and behind a full one.
#[test]
fn a_fault_of_a_record_is_answered_with_the_fixes_before_it(rt: HostRuntime) -> Result<(), Fail> {
    for unit in [Scale::Metre, Scale::Decimetre] {
        for (fixes, block) in [(0, 1), (1, 1), (3, 1), (0, 3), (1, 3), (3, 3), (5, 3)] {
            for file in bad_records(fixes, unit) {
                expect_pumped(&rt, rt.alloc(), file, block, unit)?;
            }
        }
    }
    Ok(())
}

#[test]
fn a_fault_of_a_file_is_answered_without_a_fix(rt: HostRuntime) -> Result<(), Fail> {
    for block in [1, 3] {
        for file in files_without_fix() {
            expect_pumped(&rt, rt.alloc(), file, block, Scale::Metre)?;
        }
    }
    Ok(())
}

#[test]
fn too_many_records_are_answered(rt: HostRuntime) -> Result<(), Fail> {
    expect_pumped(&rt, rt.alloc(), too_many_records(), 3, Scale::Metre)
}
