//! Why a recovery failed.

use ssi_log::LogFault;

/// Why a line couldn't be carried out.
#[derive(Clone, Copy, Debug, PartialEq, Eq)]
pub(crate) enum LineFault {
    /// It is neither a comment nor a command, or the command is refused for another reason than memory.
    Damaged,
    /// Memory ran out.
    Memory,
}

/// Why the lines of a log couldn't be carried out. Lines are counted from 1.
#[derive(Clone, Copy, Debug, PartialEq, Eq)]
pub enum ReplayFault {
    /// The first line isn't the header of the segment.
    Header,
    /// A line is neither a comment nor a command, or the command is refused for another reason than memory.
    Damaged { line: usize },
    /// Memory ran out at a line that could have been carried out.
    Memory { line: usize },
}

/// Why a log wasn't recovered.
#[derive(Debug, Drop)]
pub enum RecoveryFault {
    /// The text couldn't be read. The file stays as it was.
    Read(LogFault),
    /// The lines couldn't be carried out. The file stays as it was.
    Replay(ReplayFault),
    /// The log couldn't be resumed. Its whole lines stay.
    Resume(LogFault),
}
