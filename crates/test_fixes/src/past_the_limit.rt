// A reader reads no record past the first one that is too many.

use crate::files::outcome;
use range_fixes::ReadFault;
use range_plane::FIX_LIMIT;
use std::io;
use std::io::Read;
use test_doubles::{HEADER, HEADER_WITH_USE, ScriptedSource};

// A source that fails once so many bytes of its pieces were given.
#[derive(Drop)]
struct Failing<'a> {
    pieces: ScriptedSource<'a>,
    left: usize,
}

impl Read for Failing<'_> {
    fn read(&mut self, buf: &mut [u8]) -> io::Result<usize> {
        if self.left == 0 {
            return Err(io::Error::from(io::ErrorKind::PermissionDenied));
        }
        let most = self.left.min(buf.len());
        let n = self.pieces.read(&mut buf[..most])?;
        self.left = self.left.saturating_sub(n);
        Ok(n)
    }
}

// Records without end, each given by a read of its own. Where the source fails behind the first record that is
// too many, the reader does not meet the failure; where it fails a byte before, the reader does.
#[test]
fn no_record_is_read_past_the_first_too_many(rt: HostRuntime) {
    let (read, many) = (ReadFault::Read, ReadFault::TooManyFixes);
    let last = Some((0, 0));
    let cases = [
        (HEADER, b"A,0,0,0\n".as_slice(), FIX_LIMIT, last),
        (HEADER_WITH_USE, b"A,0,0,0,0\n", 0, None),
    ];
    for (header, record, count, last) in cases {
        let records = record.len().saturating_mul(FIX_LIMIT as usize + 1);
        let all = header.len().saturating_add(records);
        for (left, fault) in [(all, many), (all.saturating_sub(1), read)] {
            let pieces = ScriptedSource::repeated(header, record, u64::MAX, b"", 8192);
            let found = outcome(&rt, rt.alloc(), Failing { pieces, left });
            assert!(rt; found == (count, last, Some(fault)), "{left} bytes");
        }
    }
}
