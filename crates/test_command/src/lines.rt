// The line of a refusal goes out in one write, and whole.

use crate::memory::Memory;
use crate::started::status_of;
use range_command::Output;
use std::io;
use std::io::Write;
use std::test::Fail;

// A writer that takes so many bytes at most, and counts its writes.
#[derive(Drop)]
struct Counted {
    held: Vec<u8>,
    most: usize,
    writes: usize,
}

impl Write for Counted {
    fn write(&mut self, buf: &[u8]) -> io::Result<usize> {
        self.writes = self.writes.saturating_add(1);
        let taken = buf.len().min(self.most);
        self.held.extend_from_slice(&buf[..taken])?;
        Ok(taken)
    }

    fn flush(&mut self) -> io::Result<()> {
        Ok(())
    }
}

// A path of any length, with characters that are not seen and a byte that takes part in two, is said in one write.
#[test]
fn a_refusal_goes_out_in_one_write(rt: HostRuntime) -> Result<(), Fail> {
    let alloc = rt.alloc();
    let mut path = String::from_str(alloc, "/no/such/\u{9b}\u{85}")?;
    for _ in 0..30_000 {
        path.push_str("fox\n")?;
    }
    for words in [
        [b"homerange".as_slice(), path.as_str().as_bytes()],
        [b"homerange", b"/no/such/fox.csv"],
        [b"homerange", b"--bogus"],
    ] {
        for (most, exact) in [(usize::MAX, true), (7, false)] {
            let counted = Counted {
                held: Vec::new(alloc),
                most,
                writes: 0,
            };
            let mut errors = Output::new(Memory::new(counted));
            let mut out = Output::new(Memory::new(Vec::new(alloc)));
            let status = status_of(&rt, &words, b"", &mut out, &mut errors);
            let said = &errors.outlet().writer;
            assert!(rt; status == 1 || status == 2);
            assert!(rt; said.held.starts_with(b"homerange: ") && said.held.ends_with(b"\n"));
            let ends = said.held.iter().filter(|byte| **byte == b'\n').count();
            assert!(rt; ends == 1);
            let writes = if exact {
                1
            } else {
                said.held.len().div_ceil(7)
            };
            assert!(rt; said.writes == writes);
        }
    }
    Ok(())
}
