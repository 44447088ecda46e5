//! Readers and writers that report their faults, lines that are read, and what is written.
#![tactic(auto)]

mod line_buffer;
mod source;
mod watched;
mod writing;

pub use line_buffer::{LineBuffer, SourceFault};
pub use source::Source;
pub use watched::Watched;
pub use writing::{put, put_line, put_number};
