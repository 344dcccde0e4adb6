// Writing a text, whole or in parts.

ghost use Rattle.std.specs.Prelude.{◌≡◌, OnOk, OnErr, IfErr};
ghost use Rattle.std.specs.Io.KnownBytes.{Appends, Keeps};
ghost use Rattle.std.specs.List.{flat_map};
ghost use Rattle.range_run.specs.WrittenPrefix.{AppendsPrefix};

use crate::run_fault::RunFault;
use std::io::Write;

// Writes a text whole, and flushes nothing.
fn write_whole<W: Write>(out: &mut W, text: &[u8]) -> Result<(), RunFault>
    ensures whole { OnOk result (Appends (W.contents out.old) (W.contents out.new) text.now) }
    ensures prefix { OnErr result
        (AppendsPrefix (W.contents out.old) (W.contents out.new) text.now) }
    ensures fault { IfErr result (λ fault. fault ≡ RunFault.Write) }
{
    let mut at = 0;
    while at < text.len() {
        match out.write(&text[at..]) {
            Ok(0) => return Err(RunFault::Write),
            Ok(n) => at += n,
            Err(_) => return Err(RunFault::Write),
        }
    }
    Ok(())
}

// Flushes once.
fn flush<W: Write>(out: &mut W) -> Result<(), RunFault>
    ensures bytes { Keeps (W.contents out.old) (W.contents out.new) }
    ensures fault { IfErr result (λ fault. fault ≡ RunFault.Write) }
{
    out.flush().or(Err(RunFault::Write))
}

/// Writes a text whole, and flushes once.
///
/// # Errors
///
/// `Write`, where a write failed or took no byte, or the flush failed: a prefix of the text is written then.
pub fn write_text<W: Write>(out: &mut W, text: &[u8]) -> Result<(), RunFault>
    ensures whole { OnOk result (Appends (W.contents out.old) (W.contents out.new) text.now) }
    ensures prefix { OnErr result
        (AppendsPrefix (W.contents out.old) (W.contents out.new) text.now) }
    ensures fault { IfErr result (λ fault. fault ≡ RunFault.Write) }
{
    write_whole(out, text)?;
    flush(out)
}

// Writes parts of a text, one after the other, and flushes once. Each part is let go as soon as it is written.
pub(crate) fn write_parts<W: Write>(out: &mut W, parts: Vec<Vec<u8>>) -> Result<(), RunFault>
    ensures whole { OnOk result
        (Appends (W.contents out.old) (W.contents out.new)
        (flat_map (λ part. part.items) parts.items)) }
    ensures prefix { OnErr result
        (AppendsPrefix (W.contents out.old) (W.contents out.new)
        (flat_map (λ part. part.items) parts.items)) }
    ensures fault { IfErr result (λ fault. fault ≡ RunFault.Write) }
{
    for part in parts {
        write_whole(out, &part)?;
    }
    flush(out)
}
