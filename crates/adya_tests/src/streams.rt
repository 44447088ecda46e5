//! The auditor on streams that never end, and with writers that take nothing.

use crate::given::{
    CERTIFICATE, CYCLE, HISTORY, Reader, STREAM, UNENDED, Writer, endless, full, reader, writer,
};
use crate::runs::{Call, Outcome, Run};
use adya_audit::RunFault;
use std::alloc::Global;
use std::io::ErrorKind;

/// Returns the cases, each with its name.
pub(crate) fn cases(alloc: Global) -> [(&'static str, bool); 12] {
    [
        (
            "audit_writer_takes_nothing",
            is_full_writer_told(alloc, Call::Audit, HISTORY),
        ),
        (
            "audit_endless_history",
            is_endless_line_told(alloc, Call::Audit),
        ),
        (
            "audit_first_lines_that_never_end",
            are_first_lines_refused(alloc),
        ),
        ("audit_needs_no_certificate", is_certificate_unneeded(alloc)),
        (
            "pipe_writer_takes_nothing",
            is_full_writer_told(alloc, Call::Pipe, STREAM),
        ),
        ("pipe_endless_line", is_endless_line_told(alloc, Call::Pipe)),
        (
            "pipe_first_line_that_never_ends",
            is_first_line_refused(alloc, Call::Pipe, 0, u32::MAX),
        ),
        (
            "pipe_endless_lines",
            is_first_line_refused(alloc, Call::Pipe, b'\n', 10),
        ),
        (
            "order_writer_takes_nothing",
            is_full_writer_told(alloc, Call::Order, CYCLE),
        ),
        (
            "order_endless_line",
            is_endless_line_told(alloc, Call::Order),
        ),
        (
            "order_first_line_that_never_ends",
            is_first_line_refused(alloc, Call::Order, 0, u32::MAX),
        ),
        ("order_returns_what_it_wrote", is_order_returned(alloc)),
    ]
}

fn text(text: &[u8]) -> Reader<'_> {
    reader(text, 0, ErrorKind::Other)
}

fn out(alloc: Global) -> Writer {
    writer(alloc, 0, ErrorKind::Other)
}

fn is_full_writer_told(alloc: Global, call: Call, history: &[u8]) -> bool {
    let run = Run::of(alloc, call, text(history), text(CERTIFICATE), full(alloc));
    run.outcome == Outcome::Failed(RunFault::Write) && run.out.is_failed
}

/// Whether a line that never ends meets the bound on the reads of the history.
fn is_endless_line_told(alloc: Global, call: Call) -> bool {
    let history = endless(UNENDED, b'a', 10);
    let run = Run::of(alloc, call, history, text(CERTIFICATE), out(alloc));
    run.outcome == Outcome::Failed(RunFault::ReadHistory) && run.history.is_failed && run.wrote(b"")
}

/// Whether a history of this byte alone is refused at its first line.
fn is_first_line_refused(alloc: Global, call: Call, byte: u8, most_reads: u32) -> bool {
    let history = endless(b"", byte, most_reads);
    let run = Run::of(alloc, call, history, text(CERTIFICATE), out(alloc));
    run.outcome == Outcome::Syntax && run.wrote(b"no 1 syntax history 1\n")
}

/// Whether a history and a certificate are refused whose first line never ends.
fn are_first_lines_refused(alloc: Global) -> bool {
    let certificate = endless(b"", 0, u32::MAX);
    let run = Run::of(alloc, Call::Audit, text(HISTORY), certificate, out(alloc));
    run.outcome == Outcome::Syntax
        && run.wrote(b"no 1 syntax serial 1\n")
        && is_first_line_refused(alloc, Call::Audit, 0, u32::MAX)
}

/// Whether a syntax fault of the history is the verdict even if the certificate can't be read.
fn is_certificate_unneeded(alloc: Global) -> bool {
    let history = text(b"adya 1\nw1(x.0:1,5)\n");
    let certificate = reader(CERTIFICATE, 1, ErrorKind::Other);
    let run = Run::of(alloc, Call::Audit, history, certificate, out(alloc));
    run.outcome == Outcome::Syntax && run.wrote(b"no 1 syntax history 2\n")
}

fn outcome_of_order(alloc: Global, history: &[u8]) -> Outcome {
    Run::of(alloc, Call::Order, text(history), text(b""), out(alloc)).outcome
}

fn is_order_returned(alloc: Global) -> bool {
    outcome_of_order(alloc, HISTORY) == Outcome::Serial
        && outcome_of_order(alloc, CYCLE) == Outcome::Cycle
        && outcome_of_order(alloc, b"") == Outcome::Syntax
}
