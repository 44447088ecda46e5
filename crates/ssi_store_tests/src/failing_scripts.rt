//! Scripts over devices that fail. However the lines end, both texts are written.

ghost use Rattle.std.specs.Prelude.{◌<◌};

use crate::faults::{Fault, Writer, split_after, watched_reader, watched_writer, whole_lines};
use crate::texts::verdict_on;
use crate::worked::Worked;
use adya_testing::{FailsAt, Pieces};
use ssi_cli::{ScriptFault, run_script};
use ssi_line::End;
use std::alloc::Global;
use std::io::ErrorKind;

/// A device of a run.
#[derive(Clone, Copy, PartialEq)]
pub(crate) enum Device {
    Input,
    Output,
    History,
    Certificate,
}

/// How each device of a run fails.
#[derive(Clone, Copy)]
struct Faults {
    input: Fault,
    output: Fault,
    history: Fault,
    certificate: Fault,
}

impl Faults {
    const NONE: Faults = Faults {
        input: Fault::None,
        output: Fault::None,
        history: Fault::None,
        certificate: Fault::None,
    };

    /// This device fails so, and no other one.
    fn of(device: Device, fault: Fault) -> Faults {
        let mut faults = Faults::NONE;
        match device {
            Device::Input => faults.input = fault,
            Device::Output => faults.output = fault,
            Device::History => faults.history = fault,
            Device::Certificate => faults.certificate = fault,
        }
        faults
    }
}

/// What a run over a script has left: how it ended, and its devices.
#[derive(Drop)]
struct Made<'a> {
    ended: Result<End, ScriptFault>,
    input: FailsAt<Pieces<'a>>,
    output: FailsAt<Writer>,
    history: FailsAt<Writer>,
    certificate: FailsAt<Writer>,
}

/// Runs the commands as a script in pieces of 7 bytes.
fn run(alloc: Global, commands: &[u8], faults: Faults) -> Made<'_> {
    run_in(alloc, commands, 7, faults)
}

/// Runs the commands as a script in pieces of at most `most` bytes.
fn run_in(alloc: Global, commands: &[u8], most: usize, faults: Faults) -> Made<'_>
    requires { 0 < most }
{
    let mut input = watched_reader(commands, most, faults.input);
    let mut output = watched_writer(alloc, faults.output);
    let mut history = watched_writer(alloc, faults.history);
    let mut certificate = watched_writer(alloc, faults.certificate);
    let ended = run_script(
        alloc,
        &mut input,
        &mut output,
        &mut history,
        &mut certificate,
    );
    Made {
        ended,
        input: input.into_inner(),
        output: output.into_inner(),
        history: history.into_inner(),
        certificate: certificate.into_inner(),
    }
}

impl Made<'_> {
    fn replies(&self) -> &[u8] {
        self.output.get_ref().bytes()
    }

    fn history(&self) -> &[u8] {
        self.history.get_ref().bytes()
    }

    fn certificate(&self) -> &[u8] {
        self.certificate.get_ref().bytes()
    }

    /// Returns how often the device was called.
    fn calls(&self, device: Device) -> u64 {
        match device {
            Device::Input => self.input.calls(),
            Device::Output => self.output.calls(),
            Device::History => self.history.calls(),
            Device::Certificate => self.certificate.calls(),
        }
    }

    /// Whether the auditor says yes to both texts.
    fn is_accepted(&self, alloc: Global) -> bool {
        verdict_on(alloc, self.history(), self.certificate()).as_slice() == b"yes\n".as_slice()
    }

    /// Whether both texts are those of a run over these commands, in which nothing fails, and the auditor says yes to
    /// them.
    fn has_texts_of(&self, alloc: Global, commands: &[u8]) -> bool {
        let alone = run(alloc, commands, Faults::NONE);
        alone.ended == Ok(End::Eof)
            && self.history() == alone.history()
            && self.certificate() == alone.certificate()
            && self.is_accepted(alloc)
    }
}

/// Returns how often a run over the course calls the device if nothing fails.
pub(crate) fn calls_of(alloc: Global, worked: &Worked, device: Device) -> u64 {
    run(alloc, &worked.commands, Faults::NONE).calls(device)
}

/// Whether the course makes what it must make if nothing fails.
pub(crate) fn is_as_worked(alloc: Global, worked: &Worked) -> bool {
    let made = run(alloc, &worked.commands, Faults::NONE);
    made.ended == Ok(End::Eof)
        && made.replies() == worked.replies.as_slice()
        && made.history() == worked.history.as_slice()
        && made.certificate() == worked.certificate.as_slice()
        && made.is_accepted(alloc)
}

/// Whether the run in which this call of the device fails, and nothing else, makes what it must make; for a device that
/// isn't the input, also where all lines come at once.
pub(crate) fn is_as_defined(
    alloc: Global,
    worked: &Worked,
    device: Device,
    call: u64,
    kind: ErrorKind,
) -> bool {
    let faults = Faults::of(device, Fault::At(call, kind));
    let made = run(alloc, &worked.commands, faults);
    let is_so = is_made_as_defined(alloc, worked, device, call, &made);
    if device == Device::Input {
        return is_so;
    }
    let whole = run_in(alloc, &worked.commands, usize::MAX, faults);
    is_so && is_made_as_defined(alloc, worked, device, call, &whole)
}

fn is_made_as_defined(
    alloc: Global,
    worked: &Worked,
    device: Device,
    call: u64,
    made: &Made<'_>,
) -> bool {
    made.calls(device) == call
        && match device {
            Device::Input => is_read_fault(alloc, worked, made),
            Device::Output => is_write_fault(alloc, worked, made),
            Device::History => is_history_fault(worked, made),
            Device::Certificate => is_certificate_fault(worked, made),
        }
}

/// Whether the commands whose lines came whole before the fault are carried out and answered, and no other one.
fn is_read_fault(alloc: Global, worked: &Worked, made: &Made<'_>) -> bool {
    let left = made.input.get_ref().bytes;
    let read = worked.commands.strip_suffix(left).unwrap_or(b"");
    let lines = whole_lines(read);
    made.ended == Ok(End::ReadFault)
        && made.replies() == split_after(&worked.replies, lines).0
        && made.has_texts_of(alloc, split_after(&worked.commands, lines).0)
}

/// Whether the commands are carried out up to and with the one whose reply failed, and no other one.
fn is_write_fault(alloc: Global, worked: &Worked, made: &Made<'_>) -> bool {
    let lines = whole_lines(made.replies()).saturating_add(1);
    made.ended == Ok(End::WriteFault)
        && is_written_before(made.replies(), &worked.replies, made.output.calls())
        && made.has_texts_of(alloc, split_after(&worked.commands, lines).0)
}

/// Whether these bytes are those of the text that were written, one a call, before this call.
fn is_written_before(bytes: &[u8], text: &[u8], call: u64) -> bool {
    text.starts_with(bytes) && u64::try_from(bytes.len()) == Ok(call.saturating_sub(1))
}

/// Whether the history is written as far as it was taken, and the certificate isn't begun.
fn is_history_fault(worked: &Worked, made: &Made<'_>) -> bool {
    made.ended == Err(ScriptFault::History)
        && is_written_before(made.history(), &worked.history, made.history.calls())
        && made.certificate.calls() == 0
        && made.replies() == worked.replies.as_slice()
}

/// Whether the history is whole, and the certificate is written as far as it was taken.
fn is_certificate_fault(worked: &Worked, made: &Made<'_>) -> bool {
    let calls = made.certificate.calls();
    made.ended == Err(ScriptFault::Certificate)
        && made.history() == worked.history.as_slice()
        && is_written_before(made.certificate(), &worked.certificate, calls)
        && made.replies() == worked.replies.as_slice()
}

/// Whether a reply that isn't taken is one that failed, also where all lines come at once. The first line of the course
/// begins a transaction, and no other line is carried out.
pub(crate) fn is_full_output(alloc: Global, worked: &Worked) -> bool {
    let faults = Faults::of(Device::Output, Fault::Full);
    is_begun_alone(&run(alloc, &worked.commands, faults))
        && is_begun_alone(&run_in(alloc, &worked.commands, usize::MAX, faults))
}

/// Whether one transaction is begun, nothing else is carried out, and its reply isn't written.
fn is_begun_alone(made: &Made<'_>) -> bool {
    made.ended == Ok(End::WriteFault)
        && made.replies().is_empty()
        && made.history() == b"adya 1\na1\nend\n".as_slice()
        && made.certificate() == b"serial 1\nend\n".as_slice()
}

/// Whether a history that isn't taken is one that failed.
pub(crate) fn is_full_history(alloc: Global, worked: &Worked) -> bool {
    is_without_history(alloc, worked, Fault::Full)
}

/// Whether a certificate that isn't taken is one that failed.
pub(crate) fn is_full_certificate(alloc: Global, worked: &Worked) -> bool {
    is_without_certificate(alloc, worked, Fault::Full)
}

/// Whether a text that was held back isn't written.
pub(crate) fn is_held_back(alloc: Global, worked: &Worked) -> bool {
    is_without_history(alloc, worked, Fault::HeldBack)
        && is_without_certificate(alloc, worked, Fault::HeldBack)
}

fn is_without_history(alloc: Global, worked: &Worked, fault: Fault) -> bool {
    let made = run(alloc, &worked.commands, Faults::of(Device::History, fault));
    made.ended == Err(ScriptFault::History) && made.certificate().is_empty()
}

fn is_without_certificate(alloc: Global, worked: &Worked, fault: Fault) -> bool {
    let faults = Faults::of(Device::Certificate, fault);
    let made = run(alloc, &worked.commands, faults);
    made.ended == Err(ScriptFault::Certificate) && made.history() == worked.history.as_slice()
}

/// Whether the text's fault is returned if the input can't be read and a text can't be written.
pub(crate) fn is_texts_fault(alloc: Global, kind: ErrorKind) -> bool {
    let mut faults = Faults::of(Device::Input, Fault::At(1, kind));
    faults.history = Fault::Full;
    let made = run(alloc, b"begin A\n", faults);
    made.ended == Err(ScriptFault::History) && made.certificate().is_empty()
}
