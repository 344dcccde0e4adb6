// Refusals of titles.

ghost use Rattle.std.specs.Prelude.{None};
ghost use Rattle.split_refusal.specs.Refused.{Names};

use crate::kind::Kind;
use crate::push::push;
use crate::refusal::{Refusal, Sentence, refusal_of};
use range_plane::OutOfMemory;
use split_titles::{FaultKind, PassedOver, TitleFault, fault_text};
use std::alloc::Global;

// What is said behind a column that may have marks: by which titles marks are read.
const MARKS: &str =
    " (a fix is not used where 'visible' is false, or 'manually-marked-outlier' is true)";

// The kind of a fault.
fn kind_of(fault: TitleFault) -> Kind {
    match fault.kind() {
        None => Kind::Memory,
        Some(FaultKind::Ambiguous) => Kind::Ambiguous,
        Some(FaultKind::Columns) => Kind::Columns,
        Some(FaultKind::Option) => Kind::Option,
    }
}

// The sentence of a fault, before which the path stands where it goes on behind that.
fn sentence_of(
    alloc: Global,
    fault: TitleFault,
    titles: &[&[u8]],
    path: &[u8],
) -> Result<Sentence, OutOfMemory> {
    let mut text = Vec::new(alloc);
    if let TitleFault::TooManyColumns = fault {
        text.extend_from_slice(path)?;
        push(&mut text, " ")?;
    }
    let words = fault_text(alloc, fault, titles)?;
    text.extend_from_slice(&words)?;
    if let TitleFault::PassedOver {
        what: PassedOver::Mark,
        ..
    } = fault
    {
        push(&mut text, MARKS)?;
    }
    Ok(Sentence {
        kind: kind_of(fault),
        text,
    })
}

/// The refusal of a table of these titles.
pub fn refused_titles(alloc: Global, fault: TitleFault, titles: &[&[u8]], path: &[u8]) -> Refusal
    ensures { Names None result }
{
    match fault {
        TitleFault::OutOfMemory => Refusal::out_of_memory(alloc),
        _ => refusal_of(alloc, None, sentence_of(alloc, fault, titles, path)),
    }
}
