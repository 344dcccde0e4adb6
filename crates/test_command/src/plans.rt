// Tests that runs follow their plans: the blocks that are sent, how many of them wait, and how many workers take
// them, as a gate hears of them. Each wait ends after so many turns, and then the test fails.

use crate::line::line;
use crate::memory::Memory;
use crate::options::options_of;
use range_command::{Output, SystemFiles, obey};
use range_plane::Scale;
use range_pump::{Gate, ThreadRuntime};
use range_run::run_with_gate;
use std::fs::File;
use std::process::Abort;
use std::rt::Files;
use std::sync::atomic::{AtomicU64, Ordering};
use std::test::Fail;
use std::thread;

const MOST_TURNS: u64 = 10_000_000;

// So many turns are waited for a message too many.
const LATE_TURNS: u64 = 1_000;

const NINE: &[u8] =
    b"animal,second,easting,northing\nA,1,0,0\nA,2,0,0\nA,3,0,0\nA,4,0,0\nA,5,0,0\nA,6,0,0\nA,7,0,0\nA,8,0,0\nA,9,0,0\n";

const OTHER: &[u8] = b"animal,second,easting,northing\nB,1,0,0\n";

// Counts what is sent and, of each of two files, what is taken. The worker that takes a message of the first file
// first is held until so many are to be sent, and until a message of the second file was taken, if that is wanted.
#[derive(Drop)]
struct Holding {
    wanted: u64,
    of_second: u64,
    sent: AtomicU64,
    taken: [AtomicU64; 2],
    held: AtomicU64,
}

impl Holding {
    fn new(wanted: u64, of_second: u64) -> Holding {
        Holding {
            wanted,
            of_second,
            sent: AtomicU64::new(0),
            taken: [AtomicU64::new(0), AtomicU64::new(0)],
            held: AtomicU64::new(0),
        }
    }

    fn is_met(&self) -> bool {
        self.sent.load(Ordering::SeqCst) >= self.wanted
            && self.taken[1].load(Ordering::SeqCst) >= self.of_second
    }

    fn hold(&self) {
        for _ in 0..MOST_TURNS {
            if self.is_met() {
                break;
            }
            thread::yield_now();
        }
        for _ in 0..LATE_TURNS {
            thread::yield_now();
        }
        let of_second = self.taken[1].load(Ordering::SeqCst);
        let sent = self.sent.load(Ordering::SeqCst);
        self.held.store(
            if of_second >= self.of_second { sent } else { 0 },
            Ordering::SeqCst,
        );
    }
}

impl Gate for Holding {
    fn before_send(&self, file: u32, _place: u64) {
        if file == 0 {
            self.sent.fetch_add(1, Ordering::SeqCst);
        }
    }

    fn after_take(&self, file: u32, _place: u64) {
        let index = usize::from(file > 0);
        if self.taken[index].fetch_add(1, Ordering::SeqCst) == 0 && file == 0 {
            self.hold();
        }
    }
}

// So many messages are to be sent before the first is let go, and so many in all, where nine fixes go in this plan.
fn expect_obeyed<R: ThreadRuntime + Files<File = File> + AllocGlobal + Abort>(
    rt: &R,
    words: &[&str],
    held: u64,
    sent: u64,
) -> Result<(), Fail> {
    let alloc = rt.alloc();
    let gate = Holding::new(held, 0);
    let words = line(alloc, words)?;
    let mut out = Output::new(Memory::new(Vec::new(alloc)));
    assert!(rt;
        obey(
            rt,
            &SystemFiles::new(rt),
            words.as_slice(),
            NINE,
            &gate,
            &mut out
        )
        .is_ok()
    );
    let (now, all) = (
        gate.held.load(Ordering::SeqCst),
        gate.sent.load(Ordering::SeqCst),
    );
    assert!(rt; now == held && all == sent, "{now} and {all}");
    Ok(())
}

// One message is with the worker, the line holds as many as it is deep, and the pump has one more.
#[test]
fn blocks_and_lines_are_as_long_as_the_words_say(rt: HostRuntime) -> Result<(), Fail> {
    expect_obeyed(&rt, &["--block", "1", "--depth", "1"], 3, 10)?;
    expect_obeyed(&rt, &["--block", "1", "--depth", "5"], 7, 10)?;
    expect_obeyed(&rt, &["--block", "2", "--depth", "1"], 3, 6)?;
    expect_obeyed(&rt, &["--block", "4", "--depth", "64"], 4, 4)?;
    expect_obeyed(&rt, &["--block", "1"], 6, 10)?;
    expect_obeyed(&rt, &[], 2, 2)
}

// Two workers take messages of two files at once: that of the first file waits for that of the second.
#[test]
fn two_workers_take_messages_at_once(rt: HostRuntime) -> Result<(), Fail> {
    let alloc = rt.alloc();
    let gate = Holding::new(1, 1);
    let options = options_of(alloc, &[50], (1, 1, 2), Scale::Metre)?;
    let sources = vec![in alloc; NINE, OTHER]?;
    let mut out = Vec::new(alloc);
    let outcome = run_with_gate(&rt, alloc, sources, &gate, &options, &mut out);
    assert!(rt; outcome.is_ok() && gate.held.load(Ordering::SeqCst) > 0);
    Ok(())
}
