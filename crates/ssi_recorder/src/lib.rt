//! The recorder of a transaction store: it keeps the events as they happen, and makes a history of them.
//!
//! The version order of each key (Adya 1999, section 3.1.2) is the order in which its writers committed.
//! `specs/Meaning/Recorded` has the history that a list of events makes.
#![tactic(auto)]

mod installs;
pub mod laws;
mod recorder;

pub use recorder::Recorder;
