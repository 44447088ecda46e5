//! How the program ends.

ghost use Rattle.std.specs.Prelude.{◌≡◌};
ghost use Rattle.std.specs.Process.{exit_status};
ghost use Rattle.lists_verdicts.specs.Meaning.Status.{code_of};

use std::process::ExitCode;

/// How the program ends, each with an exit status of its own.
#[derive(Clone, Copy, Debug, PartialEq, Eq)]
pub enum Status {
    /// 0: an order explains the history, or help was asked for.
    Fine,
    /// 1: no order explains the history.
    Refused,
    /// 2: the arguments are wrong, or the text is that of no history.
    Wrong,
    /// 3: reading or writing failed, or memory ran out.
    Failed,
    /// 4: no committed transaction has a step, so there is nothing to check.
    Nothing,
    /// 5: the workload appended an element twice to one key, so that nobody can tell who wrote what was read.
    Workload,
}

impl From<Status> for ExitCode {
    ghost from_gives = { λ status exit. exit_status exit ≡ code_of status };

    fn from(status: Status) -> ExitCode {
        match status {
            Status::Fine => ExitCode::from(0),
            Status::Refused => ExitCode::from(1),
            Status::Wrong => ExitCode::from(2),
            Status::Failed => ExitCode::from(3),
            Status::Nothing => ExitCode::from(4),
            Status::Workload => ExitCode::from(5),
        }
    }
}
