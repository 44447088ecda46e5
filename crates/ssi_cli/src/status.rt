//! How the program ends.

ghost use Rattle.std.specs.Prelude.{◌≡◌, ◌≢◌, ◌↔◌};
ghost use Rattle.std.specs.Process.{exit_status};
ghost use Rattle.ssi_cli.specs.Clauses.Status.{code_of};

use adya_audit::{Ordered, Verdict};
use std::process::ExitCode;

/// How the program ends, each with an exit status of its own.
#[derive(Clone, Copy, Debug, PartialEq, Eq)]
pub enum Status {
    /// 0: the answer is yes or a certificate, the commands were carried out, or help was asked for.
    Fine,
    /// 1: the answer is no or a cycle.
    Refused,
    /// 2: the arguments ask for nothing that the program does.
    WrongArguments,
    /// 3: reading, writing or a socket failed, or memory ran out.
    Failed,
}

impl Status {
    /// The status of an audit: `Fine` for yes, `Refused` for each no.
    pub fn of_verdict(verdict: &Verdict) -> Status
        ensures fine { (result ≡ Status.Fine) ↔ (verdict.now ≡ Verdict.Yes) }
        ensures refused { (result ≡ Status.Refused) ↔ (verdict.now ≢ Verdict.Yes) }
    {
        match verdict {
            Verdict::Yes => Status::Fine,
            _ => Status::Refused,
        }
    }

    /// The status of the search for a certificate: `Fine` for a certificate, `Refused` for a cycle and for each no.
    pub fn of_ordered(ordered: &Ordered) -> Status
        ensures fine { (result ≡ Status.Fine) ↔ (ordered.now ≡ Ordered.Serial) }
        ensures refused { (result ≡ Status.Refused) ↔ (ordered.now ≢ Ordered.Serial) }
    {
        match ordered {
            Ordered::Serial => Status::Fine,
            Ordered::Cycle | Ordered::No(_) => Status::Refused,
        }
    }
}

impl From<Status> for ExitCode {
    ghost from_gives = { λ status exit. exit_status exit ≡ code_of status };

    fn from(status: Status) -> ExitCode {
        match status {
            Status::Fine => ExitCode::from(0),
            Status::Refused => ExitCode::from(1),
            Status::WrongArguments => ExitCode::from(2),
            Status::Failed => ExitCode::from(3),
        }
    }
}
