// What a record is held against: the record before it.

ghost use Rattle.std.specs.Prelude.{◌≡◌, Some, None, IfErr, OnErr, OnOk};
ghost use Rattle.range_fixes.specs.Previous.{then_previous};

use crate::read_fault::ReadFault;
use std::alloc::Global;
use std::marker::Model;

// The animal of the records so far, and the second of the last one.
#[derive(Drop)]
pub(crate) struct Previous {
    animal: Vec<u8>,
    second: u64,
}

impl Model for Previous {
    ghost use Rattle.range_fixes.specs.Previous.{Previous};

    ghost Value = { Previous };

    ghost view = { λ a. record { animal = a.animal.items; second = a.second } };
}

impl Previous {
    // The name of the animal.
    pub(crate) fn animal(&self) -> &[u8]
        ensures { result.now ≡ self.now.animal }
    {
        self.animal.as_slice()
    }

    // The second of the record.
    pub(crate) fn second(&self) -> u64
        ensures { result ≡ self.now.second }
    {
        self.second
    }
}

// Notes a record that passed, for the one after it. The name is kept from the first.
pub(crate) fn note(
    alloc: Global,
    previous: &mut Option<Previous>,
    name: &[u8],
    second: u64,
) -> Result<(), ReadFault>
    ensures ok { OnOk result (previous.new ≡ Some (then_previous previous.old name.now second)) }
    ensures memory { IfErr result (λ fault. fault ≡ ReadFault.OutOfMemory) }
    ensures err { OnErr result (previous.new ≡ previous.old) }
    ensures first { OnErr result (previous.old ≡ None) }
{
    if let Some(previous) = previous {
        previous.second = second;
        return Ok(());
    }
    let Ok(animal) = Vec::from_slice(alloc, name) else {
        return Err(ReadFault::OutOfMemory);
    };
    *previous = Some(Previous { animal, second });
    Ok(())
}
