//! What came of a line.

use adya_text::WriteFault;

/// What carrying out a line came to.
#[derive(Clone, Copy, Debug, PartialEq, Eq)]
pub struct Carried {
    /// Whether the line ends the run.
    pub stops: bool,
    /// Whether the line counts: it is a command that wasn't refused, also for memory, and that isn't `stat`. A store that
    /// carries out those of its lines that count, and no others, answers the lines after them in the same way.
    pub counted: bool,
    /// Whether the answer was written. `WriteFault` only if the device has failed: it took a front of the answer, but not all.
    /// The line has been carried out then, too.
    pub written: Result<(), WriteFault>,
}
