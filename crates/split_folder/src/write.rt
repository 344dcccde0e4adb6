// A folder is written whole or not at all.

ghost use Rattle.std.specs.Prelude.{◌≡◌, [], Err, IfErr, Ok, OnOk, length};
ghost use Rattle.split_folder.specs.Folder.{IsKnown, begun, in_place, nothing, sound};
ghost use Rattle.split_folder.specs.Names.{AreGood};
ghost use Rattle.split_folder.specs.Fault.{IsOfNames, IsStep, IsStopped, Tells, files_in, names_in};

use crate::fault::{FolderFault, Stop};
use crate::folder::Folder;
use crate::names::check_names;
use crate::new_file::NewFile;
use crate::step::Step;
use std::io;

/// Writes a folder of which nothing was made yet, with these files and no other.
///
/// # Errors
///
/// The first file that has a bad name or that of an earlier one, before anything is made. Or the first step that failed:
/// then what was made is removed, and no other call is made.
pub fn write_folder<F: Folder>(folder: &mut F, files: &[NewFile<'_>]) -> Result<(), FolderFault>
    requires { IsKnown (sound nothing) (F.state folder.old) }
    ensures written { OnOk result
        (IsKnown (sound (in_place (files_in files.now))) (F.state folder.new)) }
    ensures names { OnOk result (AreGood (names_in files.now)) }
    ensures fault { IfErr result (IsOfNames (names_in files.now)) }
    ensures told { IfErr result (λ fault. Tells fault (F.state folder.new)) }
{
    check_names(files)?;
    match fill(folder, files) {
        Ok(()) => Ok(()),
        Err(Stop { step, error }) => {
            let left = folder.remove().err();
            Err(FolderFault::Failed { step, error, left })
        }
    }
}

// Makes the folder, adds the files and puts it in its place.
fn fill<F: Folder>(folder: &mut F, files: &[NewFile<'_>]) -> Result<(), Stop>
    requires { IsKnown (sound nothing) (F.state folder.old) }
    ensures written { OnOk result
        (IsKnown (sound (in_place (files_in files.now))) (F.state folder.new)) }
    ensures step { IfErr result (λ stop. IsStep (length files.now) stop.step) }
    ensures stopped { IfErr result (λ stop. IsStopped stop (F.state folder.new)) }
{
    stop_at(Step::Make, folder.make())?;
    add_all(folder, files)?;
    stop_at(Step::Finish, folder.finish())
}

// Adds the files in their order.
fn add_all<F: Folder>(folder: &mut F, files: &[NewFile<'_>]) -> Result<(), Stop>
    requires { IsKnown (sound (begun [])) (F.state folder.old) }
    ensures added { OnOk result
        (IsKnown (sound (begun (files_in files.now))) (F.state folder.new)) }
    ensures step { IfErr result (λ stop. IsStep (length files.now) stop.step) }
    ensures stopped { IfErr result (λ stop. IsStopped stop (F.state folder.new)) }
{
    for file in 0..files.len() {
        let added = folder.add(files[file].name, files[file].text);
        stop_at(Step::Add(file), added)?;
    }
    Ok(())
}

// The stop at this step, where it failed.
fn stop_at(step: Step, answer: io::Result<()>) -> Result<(), Stop>
    ensures ok { OnOk result (answer ≡ Ok tt) }
    ensures err { IfErr result (λ stop. (stop.step ≡ step) × (answer ≡ Err stop.error)) }
{
    match answer {
        Ok(()) => Ok(()),
        Err(error) => Err(Stop { step, error }),
    }
}
