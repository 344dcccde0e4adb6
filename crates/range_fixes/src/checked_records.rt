// The records of a source below its header, checked one at a time.

ghost use Rattle.std.specs.Prelude.{◌≡◌, ◌≢◌, ◌+◌, ◌-◌, ◌<◌, ◌≤◌, Ok, Err, Some, None, true, false, IfSome, IfErr, OnErr, OnOk, IfOk, IsSome, IsTrue, option_map};
ghost use Rattle.range_plane.specs.Fix.{fix_limit, second_limit};
ghost use Rattle.range_fixes.specs.CheckedRecords.{CountsRecord, GivesRecord, IsGoing, TakesHeader, used_ahead};
ghost use Rattle.range_fixes.specs.Field.{is_name};
ghost use Rattle.range_fixes.specs.Progress.{HasCause, Leaves, is_of_text};
ghost use Rattle.range_fixes.specs.Reading.{passed_of};
ghost use Rattle.range_fixes.specs.Records.{records_in};

use crate::checks::{CheckedRecord, checked_in, header_of, name_of};
use crate::previous::{Previous, note};
use crate::read_fault::ReadFault;
use crate::records::Records;
use range_plane::{FIX_LIMIT, Scale};
use std::alloc::Global;
use std::io::Read;
use std::marker::Model;

// The records that are left of a source, and what the next of them is held against.
#[derive(Drop)]
pub(crate) struct CheckedRecords<R: Read + Drop> {
    alloc: Global,
    records: Records<R>,
    // The unit of the coordinates.
    unit: Scale,
    // Whether the header has the column `use`, once it was read.
    header: Option<bool>,
    // How many records below the header were read.
    count: u32,
    // The record before the next.
    previous: Option<Previous>,
}

impl<R: Read + Drop> Model for CheckedRecords<R> {
    ghost use Rattle.range_fixes.specs.CheckedList.{CheckedList};

    ghost Value = { CheckedList };

    ghost use Rattle.range_fixes.specs.CheckedRecords.{IsSound, checked_list};

    ghost view = { λ a. checked_list a };

    ghost invariant = { λ a. IsSound a };
}

// Reads the header, unless it was read before, and says whether it has the column `use`.
fn take_header<R: Read + Drop>(
    records: &mut Records<R>,
    header: &mut Option<bool>,
) -> Result<bool, ReadFault>
    requires { records.old.read_failed ≡ false }
    ensures going { OnOk result (records.new.read_failed ≡ false) }
    ensures takes { IfSome records.old.left
        (λ left. TakesHeader header.old left result records.new.left) }
    ensures header { IfOk result (λ has_use. header.new ≡ Some has_use) }
    ensures none { OnErr result ((header.old ≡ None) × (header.new ≡ None)) }
    ensures own { IfErr result (λ fault. fault ≢ ReadFault.Gone) }
    ensures cause { IfErr result (λ fault. is_of_text fault ≡ false
        → records.new.read_failed ≡ true) }
{
    if let Some(has_use) = *header {
        return Ok(has_use);
    }
    if !records.advance()? {
        return Err(ReadFault::NoHeader);
    }
    let Some(has_use) = header_of(records.current()) else {
        return Err(ReadFault::BadHeader);
    };
    *header = Some(has_use);
    Ok(has_use)
}

impl<R: Read + Drop> CheckedRecords<R> {
    // The records of a source with coordinates in this unit, of which nothing is read yet. It takes no
    // memory.
    pub(crate) fn new(alloc: Global, source: R, unit: Scale) -> CheckedRecords<R>
        ensures count { result.count ≡ 0 }
        ensures animal { result.animal ≡ None }
        ensures ahead { result.ahead ≡ option_map (λ records. passed_of unit records)
            (records_in R.remaining source) }
        ensures going { result.read_failed ≡ false }
    {
        CheckedRecords {
            alloc,
            records: Records::new(alloc, source),
            unit,
            header: None,
            count: 0,
            previous: None,
        }
    }

    // Reads the next record and checks it, and before the first of them the header; `None` where there is
    // none.
    fn next_record(&mut self) -> Result<Option<CheckedRecord>, ReadFault>
        requires { IsGoing self.old }
        ensures going { OnOk result (IsGoing self.new) }
        ensures gives { GivesRecord self.old.ahead result self.new.animal self.new.ahead }
        ensures counts { CountsRecord self.old result self.new }
        ensures animal { IfSome self.old.animal (λ name. self.new.animal ≡ Some name) }
        ensures given { IfOk result (λ o. IfSome o
            (λ one. IsSome self.new.animal × (one.fix.second ≤ second_limit))) }
        ensures own { IfErr result (λ fault. fault ≢ ReadFault.Gone) }
        ensures cause { IfErr result
            (λ fault. HasCause self.old.animal fault self.new.read_failed) }
    {
        let has_use = take_header(&mut self.records, &mut self.header)?;
        if !self.records.advance()? {
            return Ok(None);
        }
        self.count += 1;
        if self.count > FIX_LIMIT {
            return Err(ReadFault::TooManyFixes);
        }
        let record = self.records.current();
        let before = self.previous.as_ref();
        let one = checked_in(record, self.unit, has_use, self.count, before)?;
        let name = name_of(record);
        note(self.alloc, &mut self.previous, name, one.fix.second)?;
        Ok(Some(one))
    }

    // Reads records up to the next that is used; `None` where there is none.
    pub(crate) fn next_used(&mut self) -> Result<Option<CheckedRecord>, ReadFault>
        requires { IsGoing self.old }
        ensures going { OnOk result (IsGoing self.new) }
        ensures gives { GivesRecord (used_ahead self.old.ahead) result self.new.animal
            (used_ahead self.new.ahead) }
        ensures count { (self.old.count ≤ self.new.count) × (self.new.count ≤ fix_limit + 1) }
        ensures taken { self.old.count < self.new.count → self.new.read_failed ≡ false
            → Leaves self.old.left (self.new.count - self.old.count) result self.new.left }
        ensures animal { IfSome self.old.animal (λ name. self.new.animal ≡ Some name) }
        ensures given { IfOk result (λ o. IfSome o (λ one. (self.old.count < self.new.count)
            × IsSome self.new.animal × (one.fix.second ≤ second_limit))) }
        ensures own { IfErr result (λ fault. fault ≢ ReadFault.Gone) }
        ensures cause { IfErr result
            (λ fault. HasCause self.old.animal fault self.new.read_failed) }
    {
        loop {
            let Some(one) = self.next_record()? else {
                return Ok(None);
            };
            if one.used {
                return Ok(Some(one));
            }
        }
    }

    // The name of the animal, once a record passed.
    pub(crate) fn animal(&self) -> Option<&[u8]>
        ensures name { option_map (λ name. name.now) result ≡ self.now.animal }
        ensures within { IfSome result (λ name. IsTrue (is_name name.now)) }
    {
        self.previous.as_ref().map(|previous| previous.animal())
    }
}
