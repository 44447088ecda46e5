//! Runs of the auditor over devices that are watched.

use adya_audit::{Ordered, RunFault, Verdict, run_audit, run_order, run_pipe};
use adya_testing::{FailsAt, Narrow};
use devices::Watched;
use std::alloc::Global;
use std::io::Read;

/// What is run.
#[derive(Clone, Copy)]
pub(crate) enum Call {
    /// The audit of two streams.
    Audit,
    /// The audit of one stream, that of the history.
    Pipe,
    /// The search for a certificate or a cycle of the history.
    Order,
}

/// What a run came to.
#[derive(Clone, Copy, PartialEq, Eq)]
pub(crate) enum Outcome {
    Yes,
    /// A text has a syntax fault.
    Syntax,
    /// Another verdict.
    No,
    Serial,
    Cycle,
    Failed(RunFault),
}

impl Outcome {
    fn of_verdict(verdict: &Verdict) -> Outcome {
        match verdict {
            Verdict::Yes => Outcome::Yes,
            Verdict::Syntax { .. } => Outcome::Syntax,
            _ => Outcome::No,
        }
    }

    fn of_audit(ended: Result<Verdict, RunFault>) -> Outcome {
        match ended {
            Ok(verdict) => Outcome::of_verdict(&verdict),
            Err(fault) => Outcome::Failed(fault),
        }
    }

    fn of_order(ended: Result<Ordered, RunFault>) -> Outcome {
        match ended {
            Ok(Ordered::Serial) => Outcome::Serial,
            Ok(Ordered::Cycle) => Outcome::Cycle,
            Ok(Ordered::No(verdict)) => Outcome::of_verdict(&verdict),
            Err(fault) => Outcome::Failed(fault),
        }
    }
}

/// How a device fared.
#[derive(Clone, Copy)]
pub(crate) struct Fared {
    /// Whether a call of it failed, or its bound was met.
    pub(crate) is_failed: bool,
    /// How many calls it was given.
    pub(crate) calls: u64,
}

impl Fared {
    fn of<D: Drop>(device: Watched<FailsAt<D>>) -> Fared {
        let is_failed = device.failed();
        let calls = device.into_inner().calls();
        Fared { is_failed, calls }
    }
}

/// What came of a run.
#[derive(Drop)]
pub(crate) struct Run {
    pub(crate) outcome: Outcome,
    pub(crate) history: Fared,
    pub(crate) certificate: Fared,
    pub(crate) out: Fared,
    written: FailsAt<Narrow>,
}

impl Run {
    /// Makes the run over these devices.
    pub(crate) fn of<H: Read + Drop, C: Read + Drop>(
        alloc: Global,
        call: Call,
        history: Watched<FailsAt<H>>,
        certificate: Watched<FailsAt<C>>,
        out: Watched<FailsAt<Narrow>>,
    ) -> Run {
        let (mut history, mut certificate, mut out) = (history, certificate, out);
        let outcome = match call {
            Call::Audit => {
                Outcome::of_audit(run_audit(alloc, &mut history, &mut certificate, &mut out))
            }
            Call::Pipe => Outcome::of_audit(run_pipe(alloc, &mut history, &mut out)),
            Call::Order => Outcome::of_order(run_order(alloc, &mut history, &mut out)),
        };
        let is_failed = out.failed();
        let written = out.into_inner();
        Run {
            outcome,
            history: Fared::of(history),
            certificate: Fared::of(certificate),
            out: Fared {
                is_failed,
                calls: written.calls(),
            },
            written,
        }
    }

    /// Whether these are the bytes that were written.
    pub(crate) fn wrote(&self, bytes: &[u8]) -> bool {
        self.written.get_ref().bytes.as_slice() == bytes
    }
}
