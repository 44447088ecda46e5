//! How a run ends.

/// How a run over an input ended.
#[derive(Clone, Copy, Debug, PartialEq, Eq)]
pub enum End {
    /// The input ended.
    Eof,
    /// `stop` was read and answered.
    Stop,
    /// The reader failed.
    ReadFault,
    /// The writer failed at the answer to the last line. That line was carried out.
    WriteFault,
}
