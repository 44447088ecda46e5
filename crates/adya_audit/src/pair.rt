//! The verdict on a history text and a certificate text in two streams.

ghost use Rattle.std.specs.Prelude.{◌≡◌, ◌≢◌, ◌↔◌, ◌⊎◌, ℕ, false, true, IfOk, IfErr, OnOk, IsErrOf};
ghost use Rattle.devices.specs.Mirror.{has_failed, reads_left, watched_remaining};
ghost use Rattle.devices.specs.Clauses.Reading.{TookFewReads};
ghost use Rattle.devices.specs.Clauses.Writing.{Grew};
ghost use Rattle.adya_audit.specs.Clauses.Inputs.{OnText, OnTexts};
ghost use Rattle.adya_audit.specs.Computing.Verdicts.{plain_verdict};
ghost use Rattle.adya_audit.specs.Clauses.Output.{verdict_line};
ghost use Rattle.adya_audit.specs.Clauses.TextVerdicts.{IsVerdictOn, NamesHistoryFault, AreAccepted};
ghost use Rattle.adya_audit.specs.Meaning.Serializable.{AreSerializable};

use crate::laws::{accepted_texts_are_serializable, yes_iff_texts_accepted};
use crate::{RunFault, Text, Verdict, audit, write_verdict};
use adya_text::laws::fault_lines;
use adya_text::{ReadFault, read_history_early, read_serial_early};
use devices::Watched;
use std::alloc::Global;
use std::io::{Read, Write};

/// Reads a history text from one stream and then a certificate text from another, each to the end of its stream.
/// Writes the line of the verdict and returns the verdict. It holds one line and what it has read from the lines
/// before. It may not read what follows a syntax fault, nor the certificate if the history has one.
///
/// `ReadHistory` or `ReadSerial` if reading the history or the certificate fails, `Write` if writing fails, `Memory` if
/// memory runs out, and not for a read that failed. Nothing has been written unless it is `Write`. The certificate's reader
/// is as it was after `ReadHistory`, and after a syntax fault of the history. Each text is read by at most one read for each
/// byte, and one more.
pub fn run_audit<H: Read, C: Read, W: Write>(
    alloc: Global,
    history: &mut Watched<H>,
    certificate: &mut Watched<C>,
    out: &mut Watched<W>,
) -> Result<Verdict, RunFault>
    ensures verdict { IfOk result (λ v. OnTexts H.remaining history.old C.remaining certificate.old
        (λ h c. IsVerdictOn h c (plain_verdict v))) }
    // A syntax fault of the history is the verdict even if nothing is known of the certificate's bytes.
    ensures history_syntax { IfOk result (λ v. OnText H.remaining history.old
        (λ h. NamesHistoryFault h (plain_verdict v))) }
    ensures yes { IfOk result (λ v. OnTexts H.remaining history.old C.remaining certificate.old
        (λ h c. (v ≡ Verdict.Yes) ↔ AreAccepted h c)) }
    ensures promise { IfOk result (λ v. OnTexts H.remaining history.old C.remaining certificate.old
        (λ h c. v ≡ Verdict.Yes → AreSerializable h c)) }
    ensures written { IfOk result (λ v. Grew W.contents out.old out.new (verdict_line (plain_verdict v))) }
    ensures history_ended { OnOk result (has_failed history.new ≡ false) }
    // The certificate isn't needed if the history has a syntax fault.
    ensures certificate_ended { IfOk result
        (λ v. ((k : ℕ) × (v ≡ Verdict.Syntax Text.History k)) ⊎ (has_failed certificate.new ≡ false)) }
    ensures history_fault { IsErrOf result RunFault.ReadHistory → has_failed history.new ≡ true }
    ensures certificate_fault { IsErrOf result RunFault.ReadSerial → has_failed certificate.new ≡ true }
    ensures memory { IsErrOf result RunFault.Memory → (has_failed history.new ≡ has_failed history.old) × (has_failed certificate.new ≡ has_failed certificate.old) }
    ensures serial_only { IsErrOf result RunFault.ReadSerial → has_failed history.new ≡ false }
    ensures history_first { IsErrOf result RunFault.ReadHistory → certificate.new ≡ certificate.old }
    ensures not_needed { IfOk result (λ v. (k : ℕ) → v ≡ Verdict.Syntax Text.History k → certificate.new ≡ certificate.old) }
    ensures history_reads { TookFewReads (watched_remaining H.remaining) reads_left history.old history.new 1 }
    ensures certificate_reads { TookFewReads (watched_remaining C.remaining) reads_left certificate.old certificate.new 1 }
    ensures write_fault { IsErrOf result RunFault.Write → has_failed out.new ≡ true }
    ensures unwritten { IfErr result (λ e. e ≢ RunFault.Write → out.new ≡ out.old) }
{
    yes_iff_texts_accepted();
    accepted_texts_are_serializable();
    let verdict = verdict_on_streams(alloc, history, certificate)?;
    write_verdict(&verdict, out)?;
    Ok(verdict)
}

fn verdict_on_streams<H: Read, C: Read>(
    alloc: Global,
    history: &mut Watched<H>,
    certificate: &mut Watched<C>,
) -> Result<Verdict, RunFault>
    ensures verdict { IfOk result (λ v. OnTexts H.remaining history.old C.remaining certificate.old
        (λ h c. IsVerdictOn h c (plain_verdict v))) }
    ensures history_syntax { IfOk result (λ v. OnText H.remaining history.old
        (λ h. NamesHistoryFault h (plain_verdict v))) }
    ensures history_ended { OnOk result (has_failed history.new ≡ false) }
    ensures certificate_ended { IfOk result
        (λ v. ((k : ℕ) × (v ≡ Verdict.Syntax Text.History k)) ⊎ (has_failed certificate.new ≡ false)) }
    ensures history_fault { IsErrOf result RunFault.ReadHistory → has_failed history.new ≡ true }
    ensures certificate_fault { IsErrOf result RunFault.ReadSerial → has_failed certificate.new ≡ true }
    ensures memory { IsErrOf result RunFault.Memory → (has_failed history.new ≡ has_failed history.old) × (has_failed certificate.new ≡ has_failed certificate.old) }
    ensures serial_only { IsErrOf result RunFault.ReadSerial → has_failed history.new ≡ false }
    ensures history_first { IsErrOf result RunFault.ReadHistory → certificate.new ≡ certificate.old }
    ensures not_needed { IfOk result (λ v. (k : ℕ) → v ≡ Verdict.Syntax Text.History k → certificate.new ≡ certificate.old) }
    ensures history_reads { TookFewReads (watched_remaining H.remaining) reads_left history.old history.new 1 }
    ensures certificate_reads { TookFewReads (watched_remaining C.remaining) reads_left certificate.old certificate.new 1 }
    ensures no_write { IsErrOf result RunFault.Write → ⊥ }
{
    fault_lines();
    let history = match read_history_early(alloc, history) {
        Ok(history) => history,
        Err(ReadFault::Syntax { line, .. }) => {
            return Ok(Verdict::Syntax {
                text: Text::History,
                line,
            });
        }
        Err(ReadFault::Device) => return Err(RunFault::ReadHistory),
        Err(ReadFault::Memory) => return Err(RunFault::Memory),
    };
    let serial = match read_serial_early(alloc, certificate) {
        Ok(serial) => serial,
        Err(ReadFault::Syntax { line, .. }) => {
            return Ok(Verdict::Syntax {
                text: Text::Serial,
                line,
            });
        }
        Err(ReadFault::Device) => return Err(RunFault::ReadSerial),
        Err(ReadFault::Memory) => return Err(RunFault::Memory),
    };
    Ok(audit(alloc, &history, &serial)?)
}
