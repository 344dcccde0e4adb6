// The fixes of a reader, read a block at a time.

ghost use Rattle.std.specs.Prelude.{◌≡◌, ◌≢◌, ◌⊎◌, ◌<◌, ◌≤◌, Ok, None, Some, true, false, length, IfErr};
ghost use Rattle.range_plane.specs.Fix.{fix_limit};
ghost use Rattle.range_fixes.specs.declared.reader.Stage.TheVariants.{Failed};
ghost use Rattle.range_fixes.specs.Progress.{is_of_text};
ghost use Rattle.range_pump.specs.Blocks.{EndsAfter, GivesNext};

use range_fixes::{FixReader, ReadFault};
use range_plane::Fix;
use std::alloc::Global;
use std::io::Read;

// Reads up to `size` fixes. Besides them: `true` where the block is full, `false` where the reader ended,
// and otherwise the reader's fault or that memory ran out for the block.
pub(crate) fn read_block<S: Read + Drop>(
    alloc: Global,
    reader: &mut FixReader<S>,
    size: u32,
) -> (Vec<Fix>, Result<bool, ReadFault>)
    requires limit { reader.old.count ≤ fix_limit }
    ensures limit { reader.new.count ≤ fix_limit }
    ensures fixes { GivesNext reader.old result.0.items reader.new }
    ensures size { length result.0.items ≤ size }
    ensures full { result.1 ≡ Ok true → length result.0.items ≡ size }
    ensures end { result.1 ≡ Ok false → (0 < reader.new.count)
        × EndsAfter reader.old reader.new.count None }
    ensures fault { IfErr result.1 (λ fault. is_of_text fault ≡ true
        → EndsAfter reader.old reader.new.count (Some fault)) }
    ensures told { IfErr result.1 (λ fault. (reader.new.stage ≡ Failed fault)
        ⊎ ((fault ≡ ReadFault.OutOfMemory) × (reader.new ≡ reader.old))) }
    ensures own { IfErr result.1 (λ fault. fault ≢ ReadFault.Gone) }
{
    let Ok(mut fixes) = Vec::with_capacity(alloc, size as usize) else {
        return (Vec::new(alloc), Err(ReadFault::OutOfMemory));
    };
    for _number in 0..size {
        match reader.next() {
            Ok(Some(fix)) => fixes.push_reserved(fix),
            Ok(None) => return (fixes, Ok(false)),
            Err(fault) => return (fixes, Err(fault)),
        }
    }
    (fixes, Ok(true))
}
