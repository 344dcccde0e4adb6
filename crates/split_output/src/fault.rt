// Why the folder of a split is not written.

ghost use Rattle.std.specs.Prelude.{◌≡◌};
ghost use Rattle.split_output.specs.declared.fault.OutputFault.TheVariants as faults;

use range_plane::OutOfMemory;
use split_folder::FolderFault;

/// Why the folder of a split is not written.
#[derive(Clone, Copy, Debug)]
pub enum OutputFault {
    OutOfMemory,
    /// A name of a file is no text in UTF-8.
    NoText,
    /// Writing stopped.
    Folder(FolderFault),
}

impl From<OutOfMemory> for OutputFault {
    ghost from_gives = { λ _ fault. fault ≡ faults.OutOfMemory };

    fn from(_refused: OutOfMemory) -> OutputFault {
        OutputFault::OutOfMemory
    }
}
