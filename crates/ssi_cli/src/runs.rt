//! Runs over any readers and writers, and their exit status.

ghost use Rattle.std.specs.Prelude.{◌≡◌, ◌≢◌, ◌↔◌, ◌⊎◌, true, false, List, IfOk, IfErr, OnOk, IsOk, Ok, Err, IsErrOf};
ghost use Rattle.devices.specs.Mirror.{has_failed};
ghost use Rattle.adya_audit.specs.declared.verdict.Verdict.{Verdict};
ghost use Rattle.adya_audit.specs.Computing.Verdicts.{plain_verdict};
ghost use Rattle.adya_audit.specs.Clauses.Inputs.{OnText, OnTexts};
ghost use Rattle.adya_audit.specs.Clauses.TextVerdicts.{IsVerdictOn, IsVerdictOnStream, NamesHistoryFault, IsAcceptedStream, IsSerializableStream, AreAccepted};
ghost use Rattle.adya_audit.specs.Meaning.Serializable.{AreSerializable};
ghost use Rattle.adya_audit.specs.Clauses.Answers.{Answer, IsAnswer};
ghost use Rattle.ssi_store.specs.Meaning.Courses.{New};
ghost use Rattle.ssi_line.specs.Meaning.Steps.{AllMayFollow, course_after};
ghost use Rattle.ssi_cli.specs.declared.script_fault.ScriptFault.{ScriptFault};
ghost use Rattle.ssi_cli.specs.declared.socket.Served.{Served};
ghost use Rattle.ssi_hub.specs.Clauses.Calls.{all_steps};
ghost use Rattle.ssi_cli.specs.Clauses.Status.{Told, Answered, IsHistorySyntax, texts_outcome, commands_outcome, serving_outcome};
ghost use Rattle.ssi_cli.specs.Clauses.Scripts.{Ran, Shown, Written, LeavesTexts, course_of};
ghost use Rattle.ssi_cli.specs.Clauses.Connections.{InTurn, steps_of};
ghost use Rattle.ssi_cli.specs.Clauses.Serving.{Together, ends_by_stop};

use crate::ScriptFault;
use crate::listener::Listener;
use crate::script::follow_script;
use crate::socket::{Served, run_socket};
use crate::status::Status;
use crate::together::{AtClose, run_together};
use adya_audit::{RunFault, run_audit, run_order, run_pipe};
use devices::{Source, Watched};
use mio::Poll;
use ssi_line::End;
use std::alloc::Global;
use std::io::{Read, Write};

/// Audits the history and the certificate that follow one another in the input, and writes the verdict.
pub fn judge_stream<R: Read, W: Write>(
    alloc: Global,
    input: &mut Watched<R>,
    out: &mut Watched<W>,
) -> Result<Status, RunFault>
    ensures accepted { IfOk result (λ status. OnText R.remaining input.old
        (λ stream. (status ≡ Status.Fine) ↔ IsAcceptedStream stream)) }
    ensures serializable { IfOk result (λ status. OnText R.remaining input.old
        (λ stream. status ≡ Status.Fine → IsSerializableStream stream)) }
    ensures told { IfOk result (λ status. (verdict : Verdict) × Told W.contents out.old out.new verdict status
        × OnText R.remaining input.old (λ stream. IsVerdictOnStream stream (plain_verdict verdict))) }
    ensures ended { OnOk result (has_failed input.new ≡ false) }
    ensures unwritten { IfErr result (λ fault. fault ≢ RunFault.Write → out.new ≡ out.old) }
    ensures memory { IsErrOf result RunFault.Memory → has_failed input.new ≡ has_failed input.old }
    ensures read_fault { IsErrOf result RunFault.ReadHistory → has_failed input.new ≡ true }
    ensures write_fault { IsErrOf result RunFault.Write → has_failed out.new ≡ true }
    ensures no_other { IsErrOf result RunFault.ReadSerial → ⊥ }
{
    let verdict = run_pipe(alloc, input, out)?;
    Ok(Status::of_verdict(&verdict))
}

/// Audits the history by the certificate, and writes the verdict.
pub fn judge_texts<H: Read, C: Read, W: Write>(
    alloc: Global,
    history: &mut Watched<H>,
    certificate: &mut Watched<C>,
    out: &mut Watched<W>,
) -> Result<Status, RunFault>
    ensures accepted { IfOk result (λ status. OnTexts H.remaining history.old C.remaining certificate.old
        (λ h c. (status ≡ Status.Fine) ↔ AreAccepted h c)) }
    ensures serializable { IfOk result (λ status. OnTexts H.remaining history.old C.remaining certificate.old
        (λ h c. status ≡ Status.Fine → AreSerializable h c)) }
    // A syntax fault of the history is the verdict even if nothing is known of the certificate's bytes, which aren't read
    // then.
    ensures told { IfOk result (λ status. (verdict : Verdict) × Told W.contents out.old out.new verdict status
        × OnTexts H.remaining history.old C.remaining certificate.old (λ h c. IsVerdictOn h c (plain_verdict verdict))
        × OnText H.remaining history.old (λ h. NamesHistoryFault h (plain_verdict verdict))
        × (IsHistorySyntax verdict ⊎ (has_failed certificate.new ≡ false))
        × (IsHistorySyntax verdict → certificate.new ≡ certificate.old)) }
    ensures history_ended { OnOk result (has_failed history.new ≡ false) }
    ensures unwritten { IfErr result (λ fault. fault ≢ RunFault.Write → out.new ≡ out.old) }
    ensures memory { IsErrOf result RunFault.Memory
        → (has_failed history.new ≡ has_failed history.old) × (has_failed certificate.new ≡ has_failed certificate.old) }
    ensures certificate_only { IsErrOf result RunFault.ReadSerial → has_failed history.new ≡ false }
    ensures history_first { IsErrOf result RunFault.ReadHistory → certificate.new ≡ certificate.old }
    ensures history_fault { IsErrOf result RunFault.ReadHistory → has_failed history.new ≡ true }
    ensures certificate_fault { IsErrOf result RunFault.ReadSerial → has_failed certificate.new ≡ true }
    ensures write_fault { IsErrOf result RunFault.Write → has_failed out.new ≡ true }
{
    let verdict = run_audit(alloc, history, certificate, out)?;
    Ok(Status::of_verdict(&verdict))
}

/// Finds a certificate of the history, or a cycle, and writes it.
pub fn order_text<H: Read, W: Write>(
    alloc: Global,
    history: &mut Watched<H>,
    out: &mut Watched<W>,
) -> Result<Status, RunFault>
    ensures answer { IfOk result (λ status. (answer : Answer) × Answered W.contents out.old out.new answer status
        × OnText H.remaining history.old (λ text. IsAnswer text answer)) }
    ensures ended { OnOk result (has_failed history.new ≡ false) }
    ensures unwritten { IfErr result (λ fault. fault ≢ RunFault.Write → out.new ≡ out.old) }
    ensures memory { IsErrOf result RunFault.Memory → has_failed history.new ≡ has_failed history.old }
    ensures read_fault { IsErrOf result RunFault.ReadHistory → has_failed history.new ≡ true }
    ensures write_fault { IsErrOf result RunFault.Write → has_failed out.new ≡ true }
    ensures no_other { IsErrOf result RunFault.ReadSerial → ⊥ }
{
    let ordered = run_order(alloc, history, out)?;
    Ok(Status::of_ordered(&ordered))
}

/// The first fault of a run over commands.
#[derive(Clone, Copy, Debug, PartialEq, Eq)]
pub enum CommandsFault {
    /// Reading the commands failed.
    Input,
    /// Writing an answer failed.
    Output,
    /// The commands were carried out, but the history and its certificate are not both written.
    Texts(ScriptFault),
}

/// Carries out the commands on a new store, and writes its history and a certificate. They are written also if reading or
/// answering the commands failed. Returns the first fault.
pub fn carry_out_commands<S: Source, W: Write, H: Write, C: Write>(
    alloc: Global,
    input: &mut S,
    out: &mut Watched<W>,
    history: &mut Watched<H>,
    certificate: &mut Watched<C>,
) -> Result<Status, CommandsFault>
    ensures run { (ran : Ran W.contents (S.remaining input.old) (S.remaining input.new) out.old out.new)
        × Shown ran.end (S.is_failed input.old) (S.is_failed input.new) (has_failed out.new)
        × (written : Written) × (result ≡ commands_outcome ran.end written)
        × LeavesTexts written (course_of ran) H.contents history.old history.new C.contents certificate.old certificate.new }
    ensures input { IsErrOf result CommandsFault.Input → S.is_failed input.new ≡ true }
    ensures output { IsErrOf result CommandsFault.Output → has_failed out.new ≡ true }
    ensures history { IsErrOf result (CommandsFault.Texts ScriptFault.History) → has_failed history.new ≡ true }
    ensures certificate { IsErrOf result (CommandsFault.Texts ScriptFault.Certificate) → has_failed certificate.new ≡ true }
    ensures memory { IsErrOf result (CommandsFault.Texts ScriptFault.Memory)
        → (history.new ≡ history.old) × (certificate.new ≡ certificate.old) }
{
    let (end, written) = follow_script(alloc, input, out, history, certificate);
    status_of_commands(end, written)
}

/// Returns the status of a run over commands, by how they ended and whether both texts are written.
fn status_of_commands(end: End, written: Result<(), ScriptFault>) -> Result<Status, CommandsFault>
    ensures { result ≡ commands_outcome end written }
{
    match end {
        End::ReadFault => Err(CommandsFault::Input),
        End::WriteFault => Err(CommandsFault::Output),
        End::Eof | End::Stop => status_of_texts(written),
    }
}

/// Returns the status of a run over commands that no device ended, by whether both texts are written.
fn status_of_texts(written: Result<(), ScriptFault>) -> Result<Status, CommandsFault>
    ensures { result ≡ texts_outcome written }
{
    match written {
        Ok(()) => Ok(Status::Fine),
        Err(fault) => Err(CommandsFault::Texts(fault)),
    }
}

/// The first fault of a run over a socket.
#[derive(Clone, Copy, Debug, PartialEq, Eq)]
pub enum ServingFault {
    /// The socket failed.
    Socket,
    /// A client ended the run, but the history and its certificate are not both written.
    Texts(ScriptFault),
}

/// Carries out the lines of the connections on a new store, and writes its history and a certificate. They are written
/// also if the socket has failed. Returns the first fault.
pub fn serve_commands<L: Listener, H: Write, C: Write>(
    alloc: Global,
    listener: &mut L,
    history: &mut Watched<H>,
    certificate: &mut Watched<C>,
) -> Result<Status, ServingFault>
    ensures run { (served : Served) × (written : Written) × (result ≡ serving_outcome served written)
        × (turns : InTurn L.Reader.remaining L.Reader.is_failed L.Writer.contents L.accepts L.closes L.fails
        listener.old listener.new served) × AllMayFollow (New 1) (steps_of turns.connections)
        × LeavesTexts written (course_after (New 1) (steps_of turns.connections)) H.contents history.old history.new
        C.contents certificate.old certificate.new }
    ensures history { IsErrOf result (ServingFault.Texts ScriptFault.History) → has_failed history.new ≡ true }
    ensures certificate { IsErrOf result (ServingFault.Texts ScriptFault.Certificate) → has_failed certificate.new ≡ true }
    ensures memory { IsErrOf result (ServingFault.Texts ScriptFault.Memory)
        → (history.new ≡ history.old) × (certificate.new ≡ certificate.old) }
{
    let (served, written) = run_socket(alloc, listener, history, certificate);
    status_of_serving(served, written)
}

/// Carries out the lines of all connections at once on a new store, and writes its history and a certificate. They are
/// written also if the socket has failed. Returns the first fault.
pub fn serve_commands_together<H: Write, C: Write>(
    alloc: Global,
    poll: &mut Poll,
    listener: &mut mio::net::UnixListener,
    at_close: AtClose,
    history: &mut Watched<H>,
    certificate: &mut Watched<C>,
) -> Result<Status, ServingFault>
    ensures run { (served : Served) × (written : Written) × (result ≡ serving_outcome served written)
        × (together : Together (ends_by_stop served)) × AllMayFollow (New 1) (all_steps together.calls)
        × LeavesTexts written (course_after (New 1) (all_steps together.calls)) H.contents history.old history.new
        C.contents certificate.old certificate.new }
    ensures history { IsErrOf result (ServingFault.Texts ScriptFault.History) → has_failed history.new ≡ true }
    ensures certificate { IsErrOf result (ServingFault.Texts ScriptFault.Certificate) → has_failed certificate.new ≡ true }
    ensures memory { IsErrOf result (ServingFault.Texts ScriptFault.Memory)
        → (history.new ≡ history.old) × (certificate.new ≡ certificate.old) }
{
    let (served, written) = run_together(alloc, poll, listener, at_close, history, certificate);
    status_of_serving(served, written)
}

/// Returns the status of a run over a socket, by how it ended and whether both texts are written: `Fine` if and only if a
/// client ended it and they are; otherwise the first fault.
pub fn status_of_serving(
    served: Served,
    written: Result<(), ScriptFault>,
) -> Result<Status, ServingFault>
    ensures outcome { result ≡ serving_outcome served written }
    ensures fine { (result ≡ Ok Status.Fine) ↔ ((served ≡ Served.Stopped) × IsOk written) }
    ensures no_other { IfOk result (λ status. status ≡ Status.Fine) }
    ensures socket { IsErrOf result ServingFault.Socket ↔ (served ≡ Served.SocketFault) }
    ensures texts { (fault : ScriptFault) → IsErrOf result (ServingFault.Texts fault) → written ≡ Err fault }
{
    match (served, written) {
        (Served::SocketFault, _) => Err(ServingFault::Socket),
        (Served::Stopped, Err(fault)) => Err(ServingFault::Texts(fault)),
        (Served::Stopped, Ok(())) => Ok(Status::Fine),
    }
}
