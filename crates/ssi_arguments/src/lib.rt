//! The arguments of the program `ssi`, and what they ask for.
#![tactic(auto)]

mod arguments;
mod command_line;
mod help;
mod idle;
mod segments;
mod storage;

pub use arguments::{LeftOpen, Manner, NoTask, Replies, Task, given_arguments, task_of};
pub use idle::idle_seconds;
pub use segments::{SEGMENT, segment_len};
