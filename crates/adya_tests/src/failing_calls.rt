//! The auditor on devices of which each call fails in turn.

use crate::given::{CERTIFICATE, CYCLE, HISTORY, KINDS, STREAM, reader, writer};
use crate::runs::{Call, Fared, Outcome, Run};
use adya_audit::RunFault;
use std::alloc::Global;
use std::io::ErrorKind;

/// The devices of a run, in the order in which they are used.
#[derive(Clone, Copy)]
enum Device {
    History,
    Certificate,
    Out,
}

/// A run, and what it comes to if no call fails.
#[derive(Clone, Copy)]
struct Case {
    call: Call,
    history: &'static [u8],
    outcome: Outcome,
    lines: &'static [u8],
}

const AUDIT: Case = Case {
    call: Call::Audit,
    history: HISTORY,
    outcome: Outcome::Yes,
    lines: b"yes\n",
};

const PIPE: Case = Case {
    call: Call::Pipe,
    history: STREAM,
    outcome: Outcome::Yes,
    lines: b"yes\n",
};

const ORDER: Case = Case {
    call: Call::Order,
    history: HISTORY,
    outcome: Outcome::Serial,
    lines: CERTIFICATE,
};

const ORDER_OF_CYCLE: Case = Case {
    call: Call::Order,
    history: CYCLE,
    outcome: Outcome::Cycle,
    lines: b"cycle 2\nww x 2 3\nwr x 3 2\n",
};

const ORDER_OF_FAULT: Case = Case {
    call: Call::Order,
    history: b"adya 1\nend\nx",
    outcome: Outcome::Syntax,
    lines: b"no 1 syntax history 3\n",
};

/// Returns the cases, each with its name.
pub(crate) fn cases(alloc: Global) -> [(&'static str, bool); 7] {
    [
        (
            "audit_kth_read_of_history_fails",
            AUDIT.is_told(alloc, Device::History),
        ),
        (
            "audit_kth_read_of_certificate_fails",
            AUDIT.is_told(alloc, Device::Certificate),
        ),
        ("audit_kth_write_fails", AUDIT.is_told(alloc, Device::Out)),
        ("pipe_kth_read_fails", PIPE.is_told(alloc, Device::History)),
        ("pipe_kth_write_fails", PIPE.is_told(alloc, Device::Out)),
        (
            "order_kth_read_fails",
            ORDER.is_told(alloc, Device::History),
        ),
        ("order_kth_write_fails", are_orders_told(alloc)),
    ]
}

fn are_orders_told(alloc: Global) -> bool {
    ORDER.is_told(alloc, Device::Out)
        && ORDER_OF_CYCLE.is_told(alloc, Device::Out)
        && ORDER_OF_FAULT.is_told(alloc, Device::Out)
}

impl Case {
    /// Whether the run says so if a call of the device fails, whichever it is and however it fails.
    fn is_told(&self, alloc: Global, device: Device) -> bool {
        for kind in KINDS {
            if !self.is_each_call_told(alloc, device, kind) {
                return false;
            }
        }
        true
    }

    fn is_each_call_told(&self, alloc: Global, device: Device, kind: ErrorKind) -> bool {
        let run = self.run(alloc, device, 0, kind);
        let calls = fared(&run, device).calls;
        if !self.is_whole(&run) || calls == 0 {
            return false;
        }
        for k in 1..=calls {
            if !is_failure(&self.run(alloc, device, k, kind), device, k) {
                return false;
            }
        }
        true
    }

    /// Makes the run in which the k-th call of the device fails; if k is 0, none does.
    fn run(&self, alloc: Global, device: Device, k: u64, kind: ErrorKind) -> Run {
        let (history, certificate, out) = match device {
            Device::History => (k, 0, 0),
            Device::Certificate => (0, k, 0),
            Device::Out => (0, 0, k),
        };
        Run::of(
            alloc,
            self.call,
            reader(self.history, history, kind),
            reader(CERTIFICATE, certificate, kind),
            writer(alloc, out, kind),
        )
    }

    /// Whether this is the run without failures.
    fn is_whole(&self, run: &Run) -> bool {
        run.outcome == self.outcome
            && run.wrote(self.lines)
            && !run.history.is_failed
            && !run.certificate.is_failed
            && !run.out.is_failed
    }
}

fn fared(run: &Run, device: Device) -> Fared {
    match device {
        Device::History => run.history,
        Device::Certificate => run.certificate,
        Device::Out => run.out,
    }
}

/// Whether the run says that the device failed, no other did, none was called after it, and nothing was written unless
/// it is the writer that failed.
fn is_failure(run: &Run, device: Device, k: u64) -> bool {
    let Fared { is_failed, calls } = fared(run, device);
    let is_told = is_failed && calls == k;
    is_told
        && match device {
            Device::History => {
                run.outcome == Outcome::Failed(RunFault::ReadHistory)
                    && run.certificate.calls == 0
                    && is_unwritten(run)
            }
            Device::Certificate => {
                run.outcome == Outcome::Failed(RunFault::ReadSerial)
                    && !run.history.is_failed
                    && is_unwritten(run)
            }
            Device::Out => {
                run.outcome == Outcome::Failed(RunFault::Write)
                    && !run.history.is_failed
                    && !run.certificate.is_failed
            }
        }
}

fn is_unwritten(run: &Run) -> bool {
    run.wrote(b"") && run.out.calls == 0
}
