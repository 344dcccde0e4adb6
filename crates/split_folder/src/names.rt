// Names of files in a folder.

ghost use Rattle.std.specs.Prelude.{◌≡◌, ◌≢◌, ◌↔◌, ◌<◌, All, IfErr, IfNone, IfSome, IsTrue, OnOk, ℕ, length};
ghost use Rattle.split_folder.specs.Names.{AreGood, IsFirst, IsOfName, IsPlain, name_at};
ghost use Rattle.split_folder.specs.Fault.{IsOfNames, IsToldFirst, names_in};

use crate::fault::FolderFault;
use crate::new_file::NewFile;

/// Checks that the names of files are plain, and that no two of them are the same.
///
/// # Errors
///
/// The first file that has a bad name or that of an earlier one.
pub(crate) fn check_names(files: &[NewFile<'_>]) -> Result<(), FolderFault>
    ensures good { OnOk result (AreGood (names_in files.now)) }
    ensures told { IfErr result (IsOfNames (names_in files.now)) }
    ensures first { IfErr result IsToldFirst }
{
    for file in 0..files.len() {
        if !is_plain(files[file].name) {
            return Err(FolderFault::BadName { file });
        }
        if let Some(before) = same_before(files, file) {
            return Err(FolderFault::SameName { file, before });
        }
    }
    Ok(())
}

/// Whether a file or a folder in a folder can have this name.
pub(crate) fn is_plain(name: &str) -> bool
    ensures { IsTrue result ↔ IsPlain name.now }
{
    !name.is_empty() && name != "." && name != ".." && are_of_name(name.as_bytes())
}

// Whether no byte is a slash or 0.
fn are_of_name(bytes: &[u8]) -> bool
    ensures { IsTrue result ↔ All IsOfName bytes.now }
{
    for byte in bytes {
        if *byte == b'/' || *byte == 0 {
            return false;
        }
    }
    true
}

// The first file before this one that has its name.
fn same_before(files: &[NewFile<'_>], file: usize) -> Option<usize>
    requires { file < length files.now }
    ensures same { IfSome result (λ before.
        before < file × (name_at (names_in files.now) before ≡ name_at (names_in files.now) file)) }
    ensures none { IfNone result (IsFirst (names_in files.now) file) }
{
    for before in 0..file {
        if files[before].name == files[file].name {
            return Some(before);
        }
    }
    None
}
