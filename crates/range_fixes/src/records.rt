// The records of a source, one at a time. No other file reads by the crate that splits them.

ghost use Rattle.std.specs.Prelude.{◌≡◌, ◌⊎◌, false, true, IfOk, OnErr, OnOk, IfErr, if◌then◌else◌};
ghost use Rattle.csv.specs.Reading.{error_kind, is_io};
ghost use Rattle.csv.specs.Records.{fields_of};
ghost use Rattle.range_fixes.specs.Records.{TakesRecord, records_in};

use crate::read_fault::ReadFault;
use csv::{ByteRecord, Error, Reader, ReaderBuilder};
use std::alloc::Global;
use std::io::Read;
use std::marker::Model;

// The records that are left of a source, and the one that was read last.
#[derive(Drop)]
pub(crate) struct Records<R: Read + Drop> {
    reader: Reader<R>,
    current: ByteRecord,
}

impl<R: Read + Drop> Model for Records<R> {
    ghost use Rattle.range_fixes.specs.RecordList.{RecordList};

    ghost Value = { RecordList };

    ghost use Rattle.range_fixes.specs.Records.{IsPlain, record_list};

    ghost view = { λ a. record_list R.remaining a };

    ghost invariant = { λ a. IsPlain a.reader };
}

// Why a read of records failed. Records of any length are read, and as bytes, so only the source and
// memory fail.
fn fault_of(error: Error) -> ReadFault
    ensures { result ≡ (if is_io
        (error_kind error) then ReadFault.Read else ReadFault.OutOfMemory) }
{
    if error.is_io_error() {
        ReadFault::Read
    } else {
        ReadFault::OutOfMemory
    }
}

impl<R: Read + Drop> Records<R> {
    // All records of a source, which is not read yet.
    pub(crate) fn new(alloc: Global, source: R) -> Records<R>
        ensures left { result.left ≡ records_in R.remaining source }
        ensures going { result.read_failed ≡ false }
    {
        let reader = ReaderBuilder::new()
            .has_headers(false)
            .flexible(true)
            .from_reader(alloc, source);
        Records {
            reader,
            current: ByteRecord::new(alloc),
        }
    }

    // Reads the next record, and says whether there was one. After an error there is none.
    pub(crate) fn advance(&mut self) -> Result<bool, ReadFault>
        requires { self.old.read_failed ≡ false }
        ensures takes { IfOk result
            (λ found. TakesRecord self.old.left found self.new.current self.new.left) }
        ensures going { OnOk result (self.new.read_failed ≡ false) }
        ensures failed { OnErr result (self.new.read_failed ≡ true) }
        ensures fault { IfErr result (λ fault. (fault ≡ ReadFault.Read)
            ⊎ (fault ≡ ReadFault.OutOfMemory)) }
    {
        match self.reader.read_byte_record(&mut self.current) {
            Ok(found) => Ok(found),
            Err(error) => Err(fault_of(error)),
        }
    }

    // The record that was read last.
    pub(crate) fn current(&self) -> &ByteRecord
        ensures { fields_of result.now ≡ self.now.current }
    {
        &self.current
    }
}
