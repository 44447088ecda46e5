//! Why a call on a folder failed.

ghost use Rattle.std.specs.Prelude.{◌≡◌};
ghost use Rattle.ssi_files.specs.Meaning.Faults.{reason_of};
ghost use Rattle.ssi_files.specs.declared.fault.FolderFault.TheVariants.{Memory};

use std::alloc::{AllocError, AllocFailed};
use std::io;
use thiserror::Error;

/// Why a call on a folder failed.
#[derive(Clone, Copy, Debug, Drop, Error)]
pub enum FolderFault {
    /// The name is that of something else.
    #[error("not a folder")]
    NotAFolder,
    /// This process may not do that there.
    #[error("no right")]
    NoRight,
    /// Another process has the folder open, or this one has it open already.
    #[error("in use")]
    InUse,
    /// Memory ran out.
    #[error("out of memory")]
    Memory,
    /// What the system says.
    #[error("{0}")]
    System(io::Error),
}

impl From<io::Error> for FolderFault {
    ghost from_gives = { λ error fault. fault ≡ reason_of error };

    fn from(error: io::Error) -> FolderFault {
        match error.kind() {
            io::ErrorKind::NotADirectory => FolderFault::NotAFolder,
            io::ErrorKind::PermissionDenied => FolderFault::NoRight,
            io::ErrorKind::OutOfMemory => FolderFault::Memory,
            _ => FolderFault::System(error),
        }
    }
}

impl From<AllocError> for FolderFault {
    ghost from_gives = { λ _ fault. fault ≡ Memory };

    fn from(_error: AllocError) -> FolderFault {
        FolderFault::Memory
    }
}
