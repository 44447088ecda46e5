//! The verdict on a history text and a certificate text in one stream.

ghost use Rattle.std.specs.Prelude.{◌≡◌, ◌≢◌, ◌↔◌, false, true, IfOk, IfErr, OnOk, IsErrOf};
ghost use Rattle.devices.specs.Mirror.{has_failed, reads_left, watched_remaining};
ghost use Rattle.devices.specs.Clauses.Reading.{TookFewReads};
ghost use Rattle.devices.specs.Clauses.Writing.{Grew};
ghost use Rattle.adya_audit.specs.Clauses.Inputs.{OnText};
ghost use Rattle.adya_audit.specs.Computing.Verdicts.{plain_verdict};
ghost use Rattle.adya_audit.specs.Clauses.Output.{verdict_line};
ghost use Rattle.adya_audit.specs.Clauses.TextVerdicts.{IsVerdictOnStream, IsAcceptedStream, IsSerializableStream};

use crate::laws::{accepted_texts_are_serializable, yes_iff_texts_accepted};
use crate::{RunFault, Verdict, audit, write_verdict};
use adya_text::{ReadFault, read_texts_from};
use devices::Watched;
use std::alloc::Global;
use std::io::{Read, Write};

/// Reads a history text and then a certificate text from one stream. The history ends with the first line `end`; if
/// there is no such line, the history is the whole stream. Writes the line of the verdict and returns the verdict. It
/// holds one line and what it has read from the lines before, and may not read what follows a syntax fault.
///
/// `ReadHistory` if reading either text fails, `Write` if writing fails, `Memory` if memory runs out, and not for a read
/// that failed. Nothing has been written unless it is `Write`. It never returns `ReadSerial`. It takes at most one read for
/// each byte, and one more.
pub fn run_pipe<R: Read, W: Write>(
    alloc: Global,
    input: &mut Watched<R>,
    out: &mut Watched<W>,
) -> Result<Verdict, RunFault>
    ensures verdict { IfOk result (λ v. OnText R.remaining input.old
        (λ stream. IsVerdictOnStream stream (plain_verdict v))) }
    ensures yes { IfOk result (λ v. OnText R.remaining input.old
        (λ stream. (v ≡ Verdict.Yes) ↔ IsAcceptedStream stream)) }
    ensures promise { IfOk result (λ v. OnText R.remaining input.old
        (λ stream. v ≡ Verdict.Yes → IsSerializableStream stream)) }
    ensures written { IfOk result (λ v. Grew W.contents out.old out.new (verdict_line (plain_verdict v))) }
    ensures ended { OnOk result (has_failed input.new ≡ false) }
    ensures memory { IsErrOf result RunFault.Memory → has_failed input.new ≡ has_failed input.old }
    ensures reads { TookFewReads (watched_remaining R.remaining) reads_left input.old input.new 1 }
    ensures read_fault { IsErrOf result RunFault.ReadHistory → has_failed input.new ≡ true }
    ensures write_fault { IsErrOf result RunFault.Write → has_failed out.new ≡ true }
    ensures no_other { IsErrOf result RunFault.ReadSerial → ⊥ }
    ensures unwritten { IfErr result (λ e. e ≢ RunFault.Write → out.new ≡ out.old) }
{
    yes_iff_texts_accepted();
    accepted_texts_are_serializable();
    let verdict = verdict_on_stream(alloc, input)?;
    write_verdict(&verdict, out)?;
    Ok(verdict)
}

fn verdict_on_stream<R: Read>(alloc: Global, input: &mut Watched<R>) -> Result<Verdict, RunFault>
    ensures verdict { IfOk result (λ v. OnText R.remaining input.old
        (λ stream. IsVerdictOnStream stream (plain_verdict v))) }
    ensures ended { OnOk result (has_failed input.new ≡ false) }
    ensures memory { IsErrOf result RunFault.Memory → has_failed input.new ≡ has_failed input.old }
    ensures reads { TookFewReads (watched_remaining R.remaining) reads_left input.old input.new 1 }
    ensures read_fault { IsErrOf result RunFault.ReadHistory → has_failed input.new ≡ true }
    ensures no_serial { IsErrOf result RunFault.ReadSerial → ⊥ }
    ensures no_write { IsErrOf result RunFault.Write → ⊥ }
{
    let (history, serial) = match read_texts_from(alloc, input) {
        Ok(texts) => texts,
        Err(ReadFault::Syntax { text, line }) => return Ok(Verdict::Syntax { text, line }),
        Err(ReadFault::Device) => return Err(RunFault::ReadHistory),
        Err(ReadFault::Memory) => return Err(RunFault::Memory),
    };
    Ok(audit(alloc, &history, &serial)?)
}
