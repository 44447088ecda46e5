//! Why a store that keeps its data can't be used.

ghost use Rattle.std.specs.Prelude.{◌≡◌};
ghost use Rattle.ssi_data.specs.declared.fault.DataFault.TheVariants.{Memory};
ghost use Rattle.ssi_data.specs.Clauses.Faults.{of_folder, of_log, of_recovery, of_replay, reason_of};

use ssi_durable::{RecoveryFault, ReplayFault};
use ssi_files::FolderFault;
use ssi_log::LogFault;
use std::alloc::AllocError;
use std::{fmt, io};

/// Why a store that keeps its data can't be used. It prints as the reason, without the folder.
#[derive(Debug, Drop)]
pub enum DataFault {
    /// Memory ran out.
    Memory,
    /// There is something else than a folder.
    NotAFolder,
    /// This process may not use the folder, or what is in it.
    NoRight,
    /// Another process uses the folder.
    InUse,
    /// The first line of the segment isn't its header.
    Header,
    /// This line of the segment, counted from 1, can't be carried out.
    Line(usize),
    /// No zero byte ends the text of the segment.
    NoEnd,
    /// The log can't be used: a call failed before, or the file would be too long.
    Unusable,
    /// What the system says.
    System(io::Error),
}

impl fmt::Display for DataFault {
    ghost output = { λ fault. reason_of fault };

    fn fmt<W: fmt::Write>(&self, f: &mut fmt::Formatter<W>) -> fmt::Result {
        match self {
            DataFault::Memory => write!(f, "out of memory"),
            DataFault::NotAFolder => write!(f, "not a folder"),
            DataFault::NoRight => write!(f, "no right"),
            DataFault::InUse => write!(f, "in use"),
            DataFault::Header => write!(f, "header"),
            DataFault::Line(number) => write!(f, "line {number}"),
            DataFault::NoEnd => write!(f, "no end"),
            DataFault::Unusable => write!(f, "unusable"),
            DataFault::System(error) => write!(f, "{error}"),
        }
    }
}

impl From<AllocError> for DataFault {
    ghost from_gives = { λ _ fault. fault ≡ Memory };

    fn from(_: AllocError) -> DataFault {
        DataFault::Memory
    }
}

impl From<FolderFault> for DataFault {
    ghost from_gives = { λ was fault. fault ≡ of_folder was };

    fn from(fault: FolderFault) -> DataFault {
        match fault {
            FolderFault::NotAFolder => DataFault::NotAFolder,
            FolderFault::NoRight => DataFault::NoRight,
            FolderFault::InUse => DataFault::InUse,
            FolderFault::Memory => DataFault::Memory,
            FolderFault::System(error) => DataFault::System(error),
        }
    }
}

impl From<LogFault> for DataFault {
    ghost from_gives = { λ was fault. fault ≡ of_log was };

    fn from(fault: LogFault) -> DataFault {
        match fault {
            LogFault::Memory => DataFault::Memory,
            LogFault::NoEnd => DataFault::NoEnd,
            LogFault::Full(error) => DataFault::System(error),
            LogFault::Failed(error) => DataFault::System(error),
            LogFault::Closed | LogFault::NoRoom => DataFault::Unusable,
        }
    }
}

impl From<ReplayFault> for DataFault {
    ghost from_gives = { λ was fault. fault ≡ of_replay was };

    fn from(fault: ReplayFault) -> DataFault {
        match fault {
            ReplayFault::Header => DataFault::Header,
            ReplayFault::Damaged { line } => DataFault::Line(line),
            ReplayFault::Memory { .. } => DataFault::Memory,
        }
    }
}

impl From<RecoveryFault> for DataFault {
    ghost from_gives = { λ was fault. fault ≡ of_recovery was };

    fn from(fault: RecoveryFault) -> DataFault {
        match fault {
            RecoveryFault::Read(fault) => DataFault::from(fault),
            RecoveryFault::Replay(fault) => DataFault::from(fault),
            RecoveryFault::Resume(fault) => DataFault::from(fault),
        }
    }
}
