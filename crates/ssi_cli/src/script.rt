//! A run over a script.

ghost use Rattle.std.specs.Prelude.{◌≡◌, ◌≢◌, true, false, Ok, Err, IfOk, MatchResult};
ghost use Rattle.devices.specs.Mirror.{has_failed};
ghost use Rattle.ssi_cli.specs.Clauses.Scripts.{Ran, Shown, Certified, HistoryWritten, LeavesTexts, course_of};

use crate::ScriptFault;
use crate::store::new_store;
use crate::texts::write_texts;
use devices::{Source, Watched};
use ssi_line::{End, serve};
use std::alloc::Global;
use std::io::Write;

/// Carries out the lines of the input on a new store, as [`serve`] does, and then writes the history of the store and a
/// certificate of it. They are written however the lines end, so also if the input or the output has failed. Returns how
/// the lines ended.
///
/// The history records the course of the store, and the auditor says yes to both texts.
pub fn run_script<S: Source, W: Write, H: Write, C: Write>(
    alloc: Global,
    input: &mut S,
    output: &mut Watched<W>,
    history: &mut Watched<H>,
    certificate: &mut Watched<C>,
) -> Result<End, ScriptFault>
    // The lines are carried out and end as the devices show, whatever the result is. If the certificate alone couldn't be
    // written, the history is written.
    ensures run { (ran : Ran W.contents (S.remaining input.old) (S.remaining input.new) output.old output.new)
        × Shown ran.end (S.is_failed input.old) (S.is_failed input.new) (has_failed output.new)
        × MatchResult result
        (λ end. (end ≡ ran.end)
        × Certified (course_of ran) H.contents history.old history.new C.contents certificate.old certificate.new)
        (λ fault. fault ≡ ScriptFault.Certificate → HistoryWritten (course_of ran) H.contents history.old history.new) }
    ensures read_fault { result ≡ Ok End.ReadFault → S.is_failed input.new ≡ true }
    ensures write_fault { result ≡ Ok End.WriteFault → has_failed output.new ≡ true }
    ensures eof { result ≡ Ok End.Eof → S.is_failed input.new ≡ false }
    ensures unfailed { IfOk result (λ end. end ≢ End.ReadFault → S.is_failed input.new ≡ true → S.is_failed input.old ≡ true) }
    ensures stream { S.same input.old input.new }
    ensures history_fault { result ≡ Err ScriptFault.History
        → (has_failed history.new ≡ true) × (certificate.new ≡ certificate.old) }
    ensures certificate_fault { result ≡ Err ScriptFault.Certificate → has_failed certificate.new ≡ true }
    ensures memory { result ≡ Err ScriptFault.Memory
        → (history.new ≡ history.old) × (certificate.new ≡ certificate.old) }
{
    let (end, written) = follow_script(alloc, input, output, history, certificate);
    match written {
        Ok(()) => Ok(end),
        Err(fault) => Err(fault),
    }
}

/// Carries out the lines of the input on a new store, and writes both texts, as [`run_script`] does. Returns how the lines
/// ended, and whether both texts are written.
pub(crate) fn follow_script<S: Source, W: Write, H: Write, C: Write>(
    alloc: Global,
    input: &mut S,
    output: &mut Watched<W>,
    history: &mut Watched<H>,
    certificate: &mut Watched<C>,
) -> (End, Result<(), ScriptFault>)
    ensures run { (ran : Ran W.contents (S.remaining input.old) (S.remaining input.new) output.old output.new)
        × (ran.end ≡ result.0)
        × LeavesTexts result.1 (course_of ran) H.contents history.old history.new C.contents certificate.old certificate.new }
    ensures shown { Shown result.0 (S.is_failed input.old) (S.is_failed input.new) (has_failed output.new) }
    ensures stream { S.same input.old input.new }
{
    let mut store = new_store(alloc);
    let end = serve(alloc, input, output, &mut store);
    let written = write_texts(alloc, store, history, certificate);
    (end, written)
}
