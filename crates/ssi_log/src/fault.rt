//! Why a call of a log failed.

ghost use Rattle.std.specs.Prelude.{◌≡◌};
ghost use Rattle.ssi_log.specs.declared.fault.LogFault.TheVariants.{Memory};

use std::alloc::AllocError;
use std::io;

/// Why a call of a log failed.
#[derive(Debug, Drop)]
pub enum LogFault {
    /// The log isn't open: it wasn't resumed, or a call failed before. Or a sync of the file has failed, or the disk may leave
    /// other bytes than the old and the new ones after a crash.
    Closed,
    /// No zero byte ends the text of the file.
    NoEnd,
    /// There is no room for the bytes, or the file would be too long.
    NoRoom,
    /// Memory ran out.
    Memory,
    /// Zeros couldn't be written ahead, as on a full disk. The text stays, and the call may be tried again.
    Full(io::Error),
    /// The file failed. Nothing more is done with it.
    Failed(io::Error),
}

impl From<AllocError> for LogFault {
    ghost from_gives = { λ _ e. e ≡ Memory };

    fn from(_: AllocError) -> LogFault {
        LogFault::Memory
    }
}
