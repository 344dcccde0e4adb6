// Files of which something was lost on the way: memory ran out, or their mark was not taken.

ghost use Rattle.std.specs.Prelude.{◌≡◌, ◌<◌, ◌≤◌, IfSome, length};
ghost use Rattle.std.specs.List.{list_any, position};
ghost use Rattle.range_options.specs.Limits.{file_limit};
ghost use Rattle.range_analysis.specs.Entries.{is_cut, lacks_memory, loss_of};

use crate::analyse_fault::AnalyseFault;
use range_collect::Followed;
use range_fixes::ReadFault;

// Whether the file's reader or its estimator ran out of memory.
fn lacks_memory(followed: &Followed) -> bool
    ensures { result ≡ lacks_memory followed.now }
{
    followed.estimator.stopped() || matches!(followed.read, Err(ReadFault::OutOfMemory))
}

// Whether memory ran out for a file.
fn any_lacks_memory(followed: &[Followed]) -> bool
    ensures { result ≡ list_any lacks_memory followed.now }
{
    followed.iter().any(|file| lacks_memory(file))
}

// The first file whose mark was not taken.
fn first_cut(followed: &[Followed]) -> Option<usize>
    ensures index { result ≡ position is_cut followed.now }
    ensures within { IfSome result (λ file. file < length followed.now) }
{
    followed.iter().position(|file| !file.marked)
}

// Why these files cannot be judged by what their readers say: out of memory, else the first line that
// was cut.
pub(crate) fn loss_of(followed: &[Followed]) -> Option<AnalyseFault>
    requires files { length followed.now ≤ file_limit }
    ensures { result ≡ loss_of followed.now }
{
    if any_lacks_memory(followed) {
        return Some(AnalyseFault::OutOfMemory);
    }
    let file = first_cut(followed)? as u32;
    Some(AnalyseFault::LineCut { file })
}
