// Files that are opened to be read.

ghost use Rattle.std.specs.Prelude.{◌≡◌, IfErr, IfOk, length, map, string_bytes};
ghost use Rattle.range_command.specs.Command.{IsOfFiles, IsUnopened};
ghost use Rattle.range_command.specs.Opener.{AllMayOpen, Found, IsNotOpened, bytes_in};

use crate::opener::{OpenFault, Opener};
use crate::refusal::Refusal;
use crate::source::Source;
use std::alloc::Global;
use std::sync::atomic::AtomicI32;

/// The files, opened in the order of their paths. The number of the reason goes to `errnos`, at the index of the file, where a read fails.
///
/// # Errors
///
/// The first file that cannot be opened to be read, such as a folder; or that memory ran out.
pub(crate) fn open_all<'a, O: Opener>(
    opener: &O,
    alloc: Global,
    paths: &[String],
    errnos: &'a [AtomicI32],
) -> Result<Vec<Source<'a, O::File>>, Refusal>
    requires { length errnos.now ≡ length paths.now }
    ensures files { IfOk result (λ sources.
        map (λ source. O.File.remaining source.source) sources.items
        ≡ map (λ path. bytes_in (O.finds opener.now (string_bytes path))) paths.now) }
    ensures opened { IfOk result (λ _. AllMayOpen (O.finds opener.now) paths.now) }
    ensures refusal { IfErr result (IsOfFiles (O.finds opener.now) paths.now) }
{
    let mut sources = Vec::new(alloc);
    for path in paths {
        let file = match opener.open(alloc, path.as_str()) {
            Ok(file) => file,
            Err(fault) => return Err(unopened(alloc, path.as_str(), fault)),
        };
        let source = Source::new(file, &errnos[sources.len()]);
        if sources.push(source).is_err() {
            return Err(Refusal::OutOfMemory);
        }
    }
    Ok(sources)
}

// The refusal of a file that is not opened.
fn unopened(alloc: Global, path: &str, fault: OpenFault) -> Refusal
    ensures { (found : Found) → IsNotOpened found fault → IsUnopened found path.now result }
{
    let OpenFault::Refused(reason) = fault else {
        return Refusal::OutOfMemory;
    };
    match String::from_str(alloc, path) {
        Ok(path) => Refusal::Unopened { path, reason },
        Err(_) => Refusal::OutOfMemory,
    }
}
