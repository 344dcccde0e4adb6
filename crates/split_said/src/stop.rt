// Why a table is not gone on with.

ghost use Rattle.std.specs.Prelude.{◌≡◌, None};
ghost use Rattle.split_refusal.specs.Refused.{IsOfNoFix};

use range_plane::OutOfMemory;
use split_refusal::{Kind, Refusal};
use std::alloc::{AllocError, AllocFailed, Global};

// A refusal of a table for what it is as a whole, and so not of a fix off the grid.
#[derive(Drop)]
pub(crate) struct Whole {
    refusal: Refusal,
    ghost of_no_fix: { IsOfNoFix refusal },
}

// Why a table is not gone on with.
#[derive(Drop)]
pub(crate) enum Stop {
    OutOfMemory,
    Refused(Whole),
}

impl From<OutOfMemory> for Stop {
    fn from(_refused: OutOfMemory) -> Stop {
        Stop::OutOfMemory
    }
}

impl From<AllocError> for Stop {
    fn from(_refused: AllocError) -> Stop {
        Stop::OutOfMemory
    }
}

impl<T: Drop> From<AllocFailed<T>> for Stop {
    fn from(_refused: AllocFailed<T>) -> Stop {
        Stop::OutOfMemory
    }
}

// A refusal of a text, if there was enough memory for it.
pub(crate) fn refused(
    alloc: Global,
    kind: Kind,
    record: Option<u32>,
    text: Result<Vec<u8>, AllocError>,
) -> Stop
    requires { kind ≡ Kind.Grid → «record» ≡ None }
{
    match text {
        Ok(text) => Stop::Refused(Whole {
            refusal: Refusal::new(alloc, kind, record, &text),
        }),
        Err(_no_memory) => Stop::OutOfMemory,
    }
}

// The refusal of a table of which no fix is left.
pub(crate) fn nothing_left(alloc: Global) -> Stop {
    Stop::Refused(Whole {
        refusal: Refusal::new(alloc, Kind::Empty, None, b"no fix is left"),
    })
}

// The refusal for which a table is not gone on with.
pub(crate) fn refusal_of(alloc: Global, stop: Stop) -> Refusal
    ensures { IsOfNoFix result }
{
    match stop {
        Stop::OutOfMemory => Refusal::out_of_memory(alloc),
        Stop::Refused(whole) => whole.refusal,
    }
}
