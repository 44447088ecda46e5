//! Why the service of connections halts.

use ssi_log::LogFault;
use std::io;

/// Why the service of connections halts.
#[derive(Debug, Drop)]
pub enum Halt {
    /// A connection sent `stop`. Its reply and all others are written as far as they were taken at once.
    Stopped,
    /// The file of the log can't grow, for this reason. No line is carried out until it can, which is tried again each second
    /// once the service goes on. This is said once until it could.
    Full(io::Error),
    /// The log is so long that the next segment is to be begun. Nothing is lost if the service goes on without.
    Rotate,
    /// The log has failed. Since then nothing was written to anybody, and the service may not go on.
    Failed(LogFault),
    /// Waiting for the sockets failed.
    SocketFault,
}
