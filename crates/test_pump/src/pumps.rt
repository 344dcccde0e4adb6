// Tests of the pump, in one thread: the line can hold all that is sent.

ghost use Rattle.std.specs.Prelude.{◌≡◌, ◌≤◌, false, [], IfOk};

use range_fixes::ReadFault;
use range_line::{Feeder, Message, Taker, open_line};
use range_plane::{Fix, Scale};
use range_pump::{Gate, Pumped, pump};
use std::alloc::Global;
use std::process::Abort;
use std::sync::Wait;
use std::sync::atomic::{AtomicU64, AtomicUsize, Ordering};
use std::test::Fail;
use test_doubles::{CUT_A, FILE_A, HEADER, SQUARE, ScriptedSource};
use test_files::is_name;
use test_line::{block_of, is_mark};

pub(crate) const FILE: u32 = 3;

// Counts its calls before a send, and those of them that came at the expected places.
#[derive(Drop)]
pub(crate) struct Expecting {
    places: &'static [u64],
    calls: AtomicUsize,
    fits: AtomicU64,
}

impl Expecting {
    pub(crate) fn new(places: &'static [u64]) -> Expecting {
        Expecting {
            places,
            calls: AtomicUsize::new(0),
            fits: AtomicU64::new(0),
        }
    }

    // Whether a call came at each of the first places in turn, so many, and no other.
    pub(crate) fn has_heard(&self, count: usize) -> bool {
        self.calls.load(Ordering::SeqCst) == count
            && self.fits.load(Ordering::SeqCst) == count as u64
    }

    // Whether a call came at each of the places in turn, and no other.
    fn is_met(&self) -> bool {
        self.has_heard(self.places.len())
    }
}

impl Gate for Expecting {
    fn before_send(&self, file: u32, place: u64) {
        let call = self.calls.fetch_add(1, Ordering::SeqCst);
        if file == FILE && self.places.get(call) == Some(&place) {
            self.fits.fetch_add(1, Ordering::SeqCst);
        }
    }

    fn after_take(&self, _file: u32, _place: u64) {}
}

// The ends of a new line of this depth, from 1 to 8.
pub(crate) fn open_one(alloc: Global, depth: usize) -> Result<(Feeder, Taker), Fail>
    requires depth { (1 ≤ depth) × (depth ≤ 8) }
    ensures feeder { IfOk result (λ r. (r.0.closed ≡ false) × (r.0.ended ≡ false)
        × (r.0.sent ≡ [])) }
    ensures taker { IfOk result (λ r. r.1.ended ≡ false) }
{
    let (mut feeders, taker) = open_line(alloc, FILE, 1, 1, depth)?;
    let feeder = feeders.pop().ok_or("no feeder")?;
    Ok((feeder, taker))
}

// Whether the feeder sent so many fixes and is closed as it says, and the file has this fault.
pub(crate) fn ends(pumped: &Pumped, fixes: u64, closed: bool, fault: ReadFault) -> bool {
    pumped.feeder.sent_fixes() == fixes
        && pumped.feeder.closed() == closed
        && matches!(&pumped.read, Err(found) if *found == fault)
}

// Whether these are the fixes of `SQUARE` from the place on, `count` of them.
fn are_square(fixes: &[Fix], place: usize, count: usize) -> bool {
    let mut equal = fixes.len() == count;
    for (fix, &(second, e, n)) in fixes.iter().zip(SQUARE.iter().skip(place)) {
        equal = equal && fix.second == second && fix.at.e == e && fix.at.n == n;
    }
    equal
}

// Whether this is the block of `count` fixes of `SQUARE` from the place on.
pub(crate) fn is_square(taken: &Option<Message>, place: usize, count: usize) -> bool {
    block_of(taken, FILE, place as u64).is_some_and(|fixes| are_square(fixes, place, count))
}

// Takes the block at the place, of at most two of the first fixes of `SQUARE`, so many, if there is one.
fn expect_block<R: Wait + Abort>(rt: &R, taker: &mut Taker, fixes: usize, place: usize)
    requires { taker.old.ended ≡ false }
    ensures { taker.new.ended ≡ false }
{
    if place < fixes {
        let count = (fixes - place).min(2);
        assert!(rt;
            is_square(&taker.take(rt), place, count),
            "the block at {place}"
        );
    }
}

// Takes what a pump sent in blocks of two: the first fixes of `SQUARE`, so many, and the mark.
fn expect_taken<R: Wait + Abort>(rt: &R, taker: &mut Taker, fixes: usize)
    requires { taker.old.ended ≡ false }
{
    expect_block(rt, taker, fixes, 0);
    expect_block(rt, taker, fixes, 2);
    expect_block(rt, taker, fixes, 4);
    assert!(rt;
        is_mark(&taker.take(rt), FILE, fixes as u64),
        "the mark after {fixes}"
    );
}

#[test]
fn a_whole_file_is_sent_in_blocks_and_a_mark(rt: HostRuntime) -> Result<(), Fail> {
    let (feeder, mut taker) = open_one(rt.alloc(), 4)?;
    let gate = Expecting::new(&[0, 2, 4, 5]);
    let source = ScriptedSource::new(FILE_A, 8192);
    let pumped = pump(&rt, rt.alloc(), source, feeder, &gate, 2, Scale::Metre);
    assert!(rt; is_name(&pumped.read, b"A"), "the name");
    assert!(rt; pumped.feeder.closed(), "the end");
    assert!(rt; pumped.feeder.sent_fixes() == 5, "fixes");
    assert!(rt; gate.is_met(), "calls");
    expect_taken(&rt, &mut taker, 5);
    Ok(())
}

#[test]
fn no_block_comes_behind_a_last_one_that_is_full(rt: HostRuntime) -> Result<(), Fail> {
    let (feeder, mut taker) = open_one(rt.alloc(), 4)?;
    let gate = Expecting::new(&[0, 5]);
    let source = ScriptedSource::new(FILE_A, 8192);
    let pumped = pump(&rt, rt.alloc(), source, feeder, &gate, 5, Scale::Metre);
    assert!(rt; is_name(&pumped.read, b"A"), "the name");
    assert!(rt; gate.is_met(), "calls");
    assert!(rt; is_square(&taker.take(&rt), 0, 5), "the block");
    assert!(rt; is_mark(&taker.take(&rt), FILE, 5), "the mark");
    Ok(())
}

#[test]
fn the_fixes_before_a_cut_record_are_sent(rt: HostRuntime) -> Result<(), Fail> {
    let (feeder, mut taker) = open_one(rt.alloc(), 4)?;
    let gate = Expecting::new(&[0, 2, 4]);
    let source = ScriptedSource::new(CUT_A, 8192);
    let pumped = pump(&rt, rt.alloc(), source, feeder, &gate, 2, Scale::Metre);
    let fault = ReadFault::WrongFieldCount {
        rec: 5,
        found: 3,
        wanted: 4,
    };
    assert!(rt; ends(&pumped, 4, true, fault), "the fault");
    assert!(rt; gate.is_met(), "calls");
    expect_taken(&rt, &mut taker, 4);
    Ok(())
}

#[test]
fn a_fix_past_the_limit_of_metres_is_sent_in_decimetres(rt: HostRuntime) -> Result<(), Fail> {
    let text = b"animal,second,easting,northing\nA,0,16777217,0\n".as_slice();
    let (feeder, mut taker) = open_one(rt.alloc(), 4)?;
    let (gate, source) = (Expecting::new(&[0]), ScriptedSource::new(text, 8192));
    let unit = Scale::Metre;
    let pumped = pump(&rt, rt.alloc(), source, feeder, &gate, 2, unit);
    let (rec, field) = (1, 2);
    let fault = ReadFault::TooLarge { rec, field, unit };
    assert!(rt; ends(&pumped, 0, true, fault), "metres");
    assert!(rt;
        gate.is_met() && is_mark(&taker.take(&rt), FILE, 0),
        "the mark"
    );
    let (feeder, mut taker) = open_one(rt.alloc(), 4)?;
    let (gate, source) = (Expecting::new(&[0, 1]), ScriptedSource::new(text, 8192));
    let unit = Scale::Decimetre;
    let pumped = pump(&rt, rt.alloc(), source, feeder, &gate, 2, unit);
    assert!(rt; gate.is_met() && is_name(&pumped.read, b"A"), "decimetres");
    let block = taker.take(&rt);
    let at = block_of(&block, FILE, 0);
    assert!(rt;
        matches!(at, Some([fix]) if fix.at.e == 16_777_217),
        "the block"
    );
    assert!(rt; is_mark(&taker.take(&rt), FILE, 1), "the mark");
    Ok(())
}

#[test]
fn without_a_taker_the_fixes_are_gone(rt: HostRuntime) -> Result<(), Fail> {
    for (text, fault) in [(FILE_A, ReadFault::Gone), (HEADER, ReadFault::NoFixes)] {
        let (feeder, taker) = open_one(rt.alloc(), 4)?;
        drop(taker);
        let (gate, source) = (Expecting::new(&[0]), ScriptedSource::new(text, 8192));
        let pumped = pump(&rt, rt.alloc(), source, feeder, &gate, 2, Scale::Metre);
        assert!(rt; ends(&pumped, 0, false, fault), "{fault}");
        assert!(rt; gate.is_met(), "one call: {fault}");
    }
    Ok(())
}

// A source that fails at each of its reads in turn: the fixes before are sent, and the mark.
#[test]
fn the_fixes_before_a_failed_read_are_sent_and_the_mark(rt: HostRuntime) -> Result<(), Fail> {
    for most in [1, 3, 8, 8192] {
        let mut before = 0;
        for reads in 0..100 {
            let (feeder, mut taker) = open_one(rt.alloc(), 4)?;
            let (gate, source) = (
                Expecting::new(&[]),
                ScriptedSource::failing(FILE_A, most, reads),
            );
            let pumped = pump(&rt, rt.alloc(), source, feeder, &gate, 2, Scale::Metre);
            if is_name(&pumped.read, b"A") {
                break;
            }
            let fixes = pumped.feeder.sent_fixes();
            assert!(rt;
                ends(&pumped, fixes, true, ReadFault::Read),
                "after {reads} reads"
            );
            assert!(rt;
                before <= fixes && fixes <= 5,
                "after {reads} reads by {most} bytes"
            );
            expect_taken(&rt, &mut taker, fixes as usize);
            before = fixes;
        }
        assert!(rt; before == 5, "all but the end by {most} bytes");
    }
    Ok(())
}

#[test]
fn a_name_of_each_length_comes_whole(rt: HostRuntime) -> Result<(), Fail> {
    let alloc = rt.alloc();
    let longest = b"abcdefghijklmnopqrstuvwxyz012345";
    for length in 1..=longest.len() {
        let name = &longest[..length];
        let mut text = Vec::from_slice(alloc, HEADER)?;
        text.extend_from_slice(name)?;
        text.extend_from_slice(b",0,0,0")?;
        let (feeder, _taker) = open_one(alloc, 4)?;
        let (gate, source) = (
            Expecting::new(&[0, 1]),
            ScriptedSource::new(text.as_slice(), 8192),
        );
        let pumped = pump(&rt, alloc, source, feeder, &gate, 2, Scale::Metre);
        assert!(rt; is_name(&pumped.read, name), "a name of {length} bytes");
        assert!(rt; gate.is_met() && pumped.feeder.closed(), "the end");
    }
    Ok(())
}
