// The two files, and the words for how the reading of one ended.

ghost use Rattle.std.specs.Prelude.{◌≡◌, IfOk, vec_len};

use range_fixes::ReadFault;
use range_plane::OutOfMemory;
use std::alloc::Global;

/// Five fixes of the animal A.
pub(crate) const FILE_A: &[u8] =
    b"animal,second,easting,northing\nA,0,0,0\nA,60,10,0\nA,120,10,10\nA,180,0,10\nA,240,5,5\n";

/// Three fixes of the animal B.
const FILE_B: &[u8] = b"animal,second,easting,northing\nB,0,5,5\nB,60,10,5\nB,120,20,5\n";

/// Both files.
pub(crate) fn both_sources(alloc: Global) -> Result<Vec<&'static [u8]>, OutOfMemory>
    ensures { IfOk result (λ sources. vec_len sources ≡ 2) }
{
    let mut sources = Vec::with_capacity(alloc, 2)?;
    sources.push_reserved(FILE_A);
    sources.push_reserved(FILE_B);
    Ok(sources)
}

/// How a reading ended.
pub(crate) fn end_of(fault: Option<ReadFault>) -> &'static str {
    match fault {
        None => "whole",
        Some(ReadFault::OutOfMemory) => "memory",
        Some(_) => "other",
    }
}
