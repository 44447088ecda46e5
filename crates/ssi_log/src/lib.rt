//! A text in a file that is filled with zeros ahead: the first zero byte is its end. After a crash, in whatever order the
//! bytes that weren't synced have reached the disk, the file has a front of the text, with all that was synced.
#![tactic(auto)]

mod fault;
pub mod laws;
mod log;
mod piece;
mod settling;
mod zeros;

pub use fault::LogFault;
pub use log::Log;
