// The fixes of a source, one at a time.

ghost use Rattle.std.specs.Prelude.{◌≡◌, ◌≢◌, ◌+◌, ◌-◌, ◌<◌, ◌≤◌, ◌↔◌, Ok, Err, Some, None, false, IfSome, IfErr, IfOk, IsSome, IsTrue, option_map};
ghost use Rattle.range_plane.specs.Fix.{fix_limit, second_limit};
ghost use Rattle.range_fixes.specs.Field.{is_name};
ghost use Rattle.range_fixes.specs.Progress.{Answers, HasCause, Leaves, Moves, Reads, final_answer};
ghost use Rattle.range_fixes.specs.Reading.{Reading, reading_from};

use crate::checked_records::CheckedRecords;
use crate::read_fault::ReadFault;
use range_plane::{Fix, Scale};
use std::alloc::Global;
use std::io::Read;
use std::marker::Model;

// How far a reader is.
#[derive(Clone, Copy)]
enum Stage {
    // The next record is to be read, and before the first one the header.
    Going,
    // There is no record left.
    Ended,
    // The reader answers this fault from here on.
    Failed(ReadFault),
}

/// Reads the fixes of a source one at a time, and checks each record.
#[derive(Drop)]
pub struct FixReader<R: Read + Drop> {
    records: CheckedRecords<R>,
    // How many fixes were given.
    count: u32,
    stage: Stage,
}

impl<R: Read + Drop> Model for FixReader<R> {
    ghost use Rattle.range_fixes.specs.Progress.{Progress};

    ghost Value = { Progress };

    ghost use Rattle.range_fixes.specs.Reader.{IsSound, progress_of};

    ghost view = { λ a. progress_of a };

    ghost invariant = { λ a. IsSound a };
}

impl<R: Read + Drop> FixReader<R> {
    /// A reader of a source with coordinates in this unit, of which nothing is read yet. It takes no memory.
    pub fn new(alloc: Global, source: R, unit: Scale) -> FixReader<R>
        ensures count { result.count ≡ 0 }
        ensures records { result.record_count ≡ 0 }
        ensures animal { result.animal ≡ None }
        ensures stage { result.stage ≡ Stage.Going }
        ensures no_failure { result.read_failed ≡ false }
        ensures reads { IfSome (reading_from R.remaining unit source) (Reads result) }
    {
        FixReader {
            records: CheckedRecords::new(alloc, source, unit),
            count: 0,
            stage: Stage::Going,
        }
    }

    /// The next fix that is used, or `None` at the end and from then on. The first call reads the header,
    /// and each call reads records up to the next that is used. After a fault every call answers that fault,
    /// and name and count stay. `Read` is answered only where the source failed, which is not retried.
    pub fn next(&mut self) -> Result<Option<Fix>, ReadFault>
        ensures from_then_on { IfSome (final_answer self.old.stage)
            (λ answer. (result ≡ answer) × (self.new ≡ self.old)) }
        ensures moves { Moves self.old result self.new }
        ensures limit { self.new.count ≤ fix_limit }
        ensures records { (self.new.count ≤ self.new.record_count)
            × (self.old.record_count ≤ self.new.record_count)
            × (self.new.record_count ≤ fix_limit + 1) }
        // Where records were read, so many were taken of those that the source has.
        ensures taken { self.old.record_count < self.new.record_count → self.new.read_failed ≡ false
            → Leaves self.old.left (self.new.record_count - self.old.record_count) result
            self.new.left }
        ensures second { IfOk result (λ o. IfSome o (λ fix. fix.second ≤ second_limit)) }
        // Of each reading that the reader goes through, it gives the next fix or what ends it.
        ensures reads { (r : Reading) → Reads self.old r → Reads self.new r }
        ensures text { (r : Reading) → Reads self.old r → Answers r self.old.count result }
        ensures own { IfErr result (λ fault. fault ≢ ReadFault.Gone) }
        ensures cause { self.old.stage ≡ Stage.Going
            → IfErr result (λ fault. HasCause self.old.animal fault self.new.read_failed) }
    {
        match self.stage {
            Stage::Going => {}
            Stage::Ended => return Ok(None),
            Stage::Failed(fault) => return Err(fault),
        }
        match self.records.next_used() {
            Ok(Some(one)) => {
                self.count += 1;
                Ok(Some(one.fix))
            }
            Ok(None) if self.count == 0 => {
                self.stage = Stage::Failed(ReadFault::NoFixes);
                Err(ReadFault::NoFixes)
            }
            Ok(None) => {
                self.stage = Stage::Ended;
                Ok(None)
            }
            Err(fault) => {
                self.stage = Stage::Failed(fault);
                Err(fault)
            }
        }
    }

    /// The animal's name, as its bytes stand in the first record; `None` before the first fix was given.
    pub fn name(&self) -> Option<&[u8]>
        ensures name { option_map (λ name. name.now) result ≡ self.now.animal }
        ensures given { IsSome result ↔ (0 < self.now.count) }
        ensures within { IfSome result (λ name. IsTrue (is_name name.now)) }
    {
        if self.count == 0 {
            return None;
        }
        self.records.animal()
    }

    /// How many fixes were given.
    pub fn count(&self) -> u32
        ensures count { result ≡ self.now.count }
        ensures limit { result ≤ fix_limit }
    {
        self.count
    }
}
