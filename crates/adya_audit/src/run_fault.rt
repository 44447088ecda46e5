//! Why a run over streams failed.

ghost use Rattle.std.specs.Prelude.{◌≡◌};
ghost use Rattle.adya_audit.specs.declared.run_fault.RunFault.TheVariants.{Memory, Write};

use crate::WriteFault;
use std::alloc::AllocError;
use thiserror::Error;

/// Why a run over streams failed. Nothing is said of the texts then.
#[derive(Clone, Copy, Debug, PartialEq, Eq, Error, Drop)]
pub enum RunFault {
    /// Reading the history failed, or reading the one stream that both texts are in.
    #[error("read fault in the history")]
    ReadHistory,
    /// Reading the certificate failed.
    #[error("read fault in the certificate")]
    ReadSerial,
    /// Writing the answer failed. How much of it went out is unknown.
    #[error("write fault")]
    Write,
    /// Memory ran out.
    #[error("memory")]
    Memory,
}

impl From<AllocError> for RunFault {
    ghost from_gives = { λ _ e. e ≡ Memory };

    fn from(_: AllocError) -> RunFault {
        RunFault::Memory
    }
}

impl From<WriteFault> for RunFault {
    ghost from_gives = { λ _ e. e ≡ Write };

    fn from(_: WriteFault) -> RunFault {
        RunFault::Write
    }
}
