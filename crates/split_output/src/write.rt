// The folder of a split is written whole or not at all.

ghost use Rattle.std.specs.Prelude.{IfErr, OnOk};
ghost use Rattle.split_folder.specs.Folder.{IsKnown, nothing, sound};
ghost use Rattle.split_output.specs.Write.{IsTold, IsWritten};

use crate::fault::OutputFault;
use crate::files::{files_of_split, names_of_split};
use crate::origin::Origin;
use crate::record::record_of_split;
use split_chain::Split;
use split_folder::{Folder, write_folder};
use std::alloc::Global;

/// Writes the folder of a split, of which nothing was made yet: the files of its tracks, and its record, which says of what it was
/// made.
///
/// # Errors
///
/// A name of a file is no text, or memory ran out, before anything is made; or why the folder is not written.
pub fn write_split<F: Folder>(
    alloc: Global,
    folder: &mut F,
    origin: &Origin<'_>,
    split: &Split,
) -> Result<(), OutputFault>
    requires { IsKnown (sound nothing) (F.state folder.old) }
    ensures written { OnOk result (IsWritten origin.now split.now (F.state folder.new)) }
    ensures told { IfErr result (λ fault. IsTold split.now fault (F.state folder.new)) }
{
    let text = record_of_split(alloc, origin, split)?;
    let names = names_of_split(alloc, split)?;
    let files = files_of_split(alloc, split, &names, &text)?;
    match write_folder(folder, &files) {
        Ok(()) => Ok(()),
        Err(fault) => Err(OutputFault::Folder(fault)),
    }
}
